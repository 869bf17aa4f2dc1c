ghost use Rattle.std.specs.Prelude.{◌≡◌, length, take_while, IsUtf8, IsCharBoundary};
ghost use Rattle.std.specs.List.{prefix_len};
ghost use Rattle.grant_lex.specs.Class.{is_blank, is_word_byte};
ghost use Rattle.mandatory_roles.specs.Runs.{has, is_host_byte, past_blanks, past_run, run_of};

use grant_lex::{is_blank, is_word_byte};

/// A sort of bytes.
#[derive(Clone, Copy)]
pub(crate) enum Run {
    Blanks,
    Word,
    Host,
}

impl Run {
    fn has(self, byte: u8) -> bool
        ensures { result ≡ has self byte }
    {
        match self {
            Run::Blanks => is_blank(byte),
            Run::Word => is_word_byte(byte),
            Run::Host => is_host_byte(byte),
        }
    }
}

fn is_host_byte(byte: u8) -> bool
    ensures { result ≡ is_host_byte byte }
{
    byte != b',' && !is_blank(byte)
}

/// How many bytes at the front are of the sort.
fn run_length(bytes: &[u8], run: Run) -> usize
    ensures { result ≡ prefix_len (has run) bytes.now }
{
    let mut length = 0;
    while length < bytes.len() && run.has(bytes[length]) {
        length += 1;
    }
    length
}

/// The longest front of `text` whose bytes are of the sort, and what follows it.
pub(crate) fn split_run(text: &str, run: Run) -> (&str, &str)
    ensures front { result.0.now ≡ run_of (has run) text.now }
    ensures rest { result.1.now ≡ past_run (has run) text.now }
{
    let length = run_length(text.as_bytes(), run);
    text.split_at(length)
}

/// What follows the blanks that `text` begins with.
pub(crate) fn past_blanks(text: &str) -> &str
    ensures { result.now ≡ past_blanks text.now }
{
    split_run(text, Run::Blanks).1
}
