ghost use Rattle.std.specs.Prelude.{◌≡◌};
ghost use Rattle.role_graph.specs.Edges.{rank as rank_of};

/// A link from one node to another, in a list that is ordered by both.
#[derive(Clone, Copy, Debug)]
pub struct Link {
    pub from: u32,
    pub to: u32,
    pub admin: bool,
}

impl Link {
    // The place in the order.
    pub fn rank(&self) -> u64
        ensures { result ≡ rank_of self.now }
    {
        self.from as u64 * 4096 + self.to as u64
    }
}
