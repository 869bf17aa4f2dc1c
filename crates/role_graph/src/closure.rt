//! What a node reaches along links.
ghost use Rattle.std.specs.Prelude.{◌≡◌, ◌<◌, ◌≤◌, ◌↔◌, ◌+◌, ◌*◌, ◌==◌, ◌&&◌, ◌||◌, ℕ, Bool, not, All, IsTrue, length, slice_range};
ghost use Rattle.std.specs.List.{list_any, slice_index_or};
ghost use Rattle.role_graph.specs.declared.link.Link.{Link};
ghost use Rattle.role_graph.specs.Edges.{IsTable, IsWithin, is_admin_link, leads_to, leads_with_admin, linked, rank};
ghost use Rattle.role_graph.specs.Nodes.{holds};
ghost use Rattle.role_graph.specs.Paths.{Reaches};

use crate::NodeSet;
use crate::link::Link;

// The nodes that a path of links leads to from the node, itself among them.
pub fn closure(links: &[Link], node: u32) -> NodeSet
    requires table { IsTable links.now }
    requires below { node < 4096 }
    ensures { (other : ℕ) → IsTrue (holds result other) ↔
        Reaches (λ to from. linked links.now from to) node other }
{
    let mut seen = NodeSet::new();
    seen.insert(node);
    let mut waiting = seen;
    while let Some(next) = waiting.pop_first() {
        visit(links_of(links, next), &mut seen, &mut waiting);
    }
    seen
}

// Adds where the links lead to the nodes that were seen, and those that are new to the nodes that wait.
fn visit(links: &[Link], seen: &mut NodeSet, waiting: &mut NodeSet)
    requires { All IsWithin links.now }
    ensures seen { (n : ℕ) → holds seen.new n ≡
        (holds seen.old n || list_any (leads_to n) links.now) }
    ensures waiting { (n : ℕ) → holds waiting.new n ≡
        (holds waiting.old n || (list_any (leads_to n) links.now && not (holds seen.old n))) }
{
    for link in links {
        note(link.to, seen, waiting);
    }
}

// Adds a node to those that were seen, and, where it is new, to those that wait.
fn note(node: u32, seen: &mut NodeSet, waiting: &mut NodeSet)
    requires { node < 4096 }
    ensures seen { (n : ℕ) → holds seen.new n ≡ (node == n || holds seen.old n) }
    ensures waiting { (n : ℕ) → holds waiting.new n ≡
        ((node == n && not (holds seen.old n)) || holds waiting.old n) }
{
    if !seen.contains(node) {
        seen.insert(node);
        waiting.insert(node);
    }
}

// The links that lead from the node.
pub fn links_of(links: &[Link], node: u32) -> &[Link]
    requires table { IsTable links.now }
    requires below { node < 4096 }
    ensures within { All IsWithin result.now }
    ensures same { (to : ℕ) → list_any (leads_to to) result.now ≡ linked links.now node to }
    ensures admin { (to : ℕ) → list_any (leads_with_admin to) result.now ≡ list_any (is_admin_link node to) links.now }
{
    let first = node as u64 * 4096;
    let start = rank_start(links, first);
    let end = rank_start(links, first + 4096);
    part(links, start, end)
}

fn part(links: &[Link], start: usize, end: usize) -> &[Link]
    requires in_order { start ≤ end }
    requires inside { end ≤ length links.now }
    ensures { result.now ≡ slice_range links.now start end }
{
    &links[start..end]
}

// The place of the first link whose rank is not below this one.
pub fn rank_start(links: &[Link], bound: u64) -> usize
    requires { IsTable links.now }
    ensures within { result ≤ length links.now }
    ensures before { (k : ℕ) (d : Link) → k < result → rank (slice_index_or links.now k d) < bound }
    ensures after { (k : ℕ) (d : Link) → result ≤ k → k < length links.now → bound ≤ rank (slice_index_or links.now k d) }
{
    links.partition_point(|link| link.rank() < bound)
}
