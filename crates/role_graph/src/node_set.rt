//! Sets of nodes.
ghost use Rattle.std.specs.Prelude.{◌≡◌, ◌<◌, ◌==◌, ◌&&◌, ◌||◌, ◌≢◌, ℕ, true, false, not, slice_index, IfSome, IfNone};

/// How many nodes there may be: each is a number below this.
pub const NODES: u32 = 4096;

/// A set of nodes.
#[derive(Clone, Copy, Debug, PartialEq, Eq)]
pub struct NodeSet([u64; 64]);

impl NodeSet {
    ghost use Rattle.role_graph.specs.Nodes.{holds};

    /// The set that holds no node.
    pub fn new() -> NodeSet
        ensures { (n : ℕ) → holds result n ≡ false }
    {
        NodeSet([0; 64])
    }

    /// Whether the set holds the node.
    pub fn contains(&self, node: u32) -> bool
        requires { node < 4096 }
        ensures { result ≡ holds self.now node }
    {
        self.0[node as usize / 64] >> (node % 64) & 1 == 1
    }

    /// Adds the node.
    pub fn insert(&mut self, node: u32)
        requires { node < 4096 }
        ensures { (n : ℕ) → holds self.new n ≡ (node == n || holds self.old n) }
    {
        self.0[node as usize / 64] |= 1 << (node % 64);
    }

    /// Takes the lowest node out.
    pub fn pop_first(&mut self) -> Option<u32>
        ensures within { IfSome result (λ node. node < 4096) }
        ensures held { IfSome result (λ node. holds self.old node ≡ true) }
        ensures lowest { IfSome result (λ node. (n : ℕ) → n < node → holds self.old n ≡ false) }
        ensures left { IfSome result (λ node. (n : ℕ) → holds self.new n ≡ (not (node == n) && holds self.old n)) }
        ensures empty { IfNone result ((n : ℕ) → holds self.old n ≡ false) }
        ensures unchanged { IfNone result (self.new ≡ self.old) }
    {
        let place = first_word(&self.0)?;
        let bit = self.0[place].trailing_zeros();
        self.0[place] &= !(1 << bit);
        Some(place as u32 * 64 + bit)
    }
}

// The place of the first word that is not 0.
fn first_word(words: &[u64; 64]) -> Option<usize>
    ensures within { IfSome result (λ place. place < 64) }
    ensures found { IfSome result (λ place. slice_index words.now place ≢ 0) }
    ensures before { IfSome result (λ place. (k : ℕ) → k < place → slice_index words.now k ≡ 0) }
    ensures none { IfNone result ((k : ℕ) → k < 64 → slice_index words.now k ≡ 0) }
{
    words.iter().position(|word| *word != 0)
}
