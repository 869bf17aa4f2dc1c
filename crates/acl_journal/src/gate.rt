ghost use Rattle.std.specs.Prelude.{◌<◌};

/// Where the last gate of a journal is: its offset from the front of the file, within the most bytes that one has.
#[derive(Clone, Copy, Debug)]
pub struct LastGate {
    pub offset: u64,
    ghost within: { offset < 67108864 },
}
