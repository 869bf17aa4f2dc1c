//! Roles before the nodes that hold them.
ghost use Rattle.std.specs.Prelude.{◌≡◌, ◌<◌, ◌≤◌, ◌+◌, ◌==◌, ◌&&◌, ℕ, Bool, true, false, not, All, count_by, length, nat_le, slice_index, take, if◌then◌else◌};
ghost use Rattle.std.specs.List.{list_any};
ghost use Rattle.role_graph.specs.Edges.{IsTable, IsWithin, leads_to, linked};
ghost use Rattle.role_graph.specs.Nodes.{holds};
ghost use Rattle.role_graph.specs.Orders.{IsOrder, IsWave, done};
ghost use Rattle.role_graph.specs.Paths.{IsFreeOfLoops};

use crate::closure::links_of;
use crate::link::Link;
use crate::{NODES, NodeSet};

// Which nodes have their place, which of them have holders that are still to be looked at, and how many there are.
#[derive(Drop)]
struct Placed {
    nodes: NodeSet,
    waiting: NodeSet,
    count: usize,
}

// Writes the affected nodes, each after its roles among them, and answers how many there are.
pub fn order(roles: &[Link], holders: &[Link], affected: &NodeSet, into: &mut [u32; 4096]) -> usize
    requires roles { IsTable roles.now }
    requires holders { IsTable holders.now }
    requires mirrored { (from to : ℕ) → linked holders.now to from ≡ linked roles.now from to }
    requires free_of_loops { IsFreeOfLoops (λ role node. linked roles.now node role) }
    ensures within { result ≤ 4096 }
    ensures once { (n : ℕ) → count_by (λ x. x == n) (take result into.new) ≡ (if holds affected.now n then 1 else 0) }
    ensures roles_first { (i j : ℕ) → i < result → j < result →
        linked roles.now (slice_index into.new j) (slice_index into.new i) ≡ true → i < j }
{
    let mut placed = place_ready(roles, affected, into);
    while let Some(next) = placed.waiting.pop_first() {
        place_holders(roles, links_of(holders, next), affected, &mut placed, into);
    }
    placed.count
}

// Looks at each node once.
fn place_ready(roles: &[Link], affected: &NodeSet, into: &mut [u32; 4096]) -> Placed
    requires { IsTable roles.now }
    ensures order { IsOrder (λ role node. linked roles.now node role) (holds affected.now) (holds result.nodes) into.new result.count }
    ensures wave { IsWave (λ role node. linked roles.now node role) (holds affected.now) (holds result.nodes) (holds result.waiting)
        (λ n. nat_le 4096 n) }
{
    let mut placed = Placed {
        nodes: NodeSet::new(),
        waiting: NodeSet::new(),
        count: 0,
    };
    for node in 0..NODES {
        place_if_ready(roles, affected, node, &mut placed, into);
    }
    placed
}

// Looks at each node that the links lead to.
fn place_holders(
    roles: &[Link],
    links: &[Link],
    affected: &NodeSet,
    placed: &mut Placed,
    into: &mut [u32; 4096],
)
    requires table { IsTable roles.now }
    requires within { All IsWithin links.now }
    requires order { IsOrder (λ role node. linked roles.now node role) (holds affected.now) (holds placed.old.nodes) into.old placed.old.count }
    ensures order { IsOrder (λ role node. linked roles.now node role) (holds affected.now) (holds placed.new.nodes) into.new placed.new.count }
    ensures wave { (to_look_at : ℕ → Bool) →
        IsWave (λ role node. linked roles.now node role) (holds affected.now) (holds placed.old.nodes) (holds placed.old.waiting) to_look_at →
        IsWave (λ role node. linked roles.now node role) (holds affected.now) (holds placed.new.nodes) (holds placed.new.waiting)
        (λ n. to_look_at n && not (list_any (leads_to n) links.now)) }
    ensures done { (n : ℕ) → done (holds placed.old.nodes) (holds placed.old.waiting) n ≡ true →
        done (holds placed.new.nodes) (holds placed.new.waiting) n ≡ true }
{
    for link in links {
        place_if_ready(roles, affected, link.to, placed, into);
    }
}

// Gives the node its place, where it is affected, has none, and its affected roles have theirs.
fn place_if_ready(
    roles: &[Link],
    affected: &NodeSet,
    node: u32,
    placed: &mut Placed,
    into: &mut [u32; 4096],
)
    requires table { IsTable roles.now }
    requires below { node < 4096 }
    requires order { IsOrder (λ role node. linked roles.now node role) (holds affected.now) (holds placed.old.nodes) into.old placed.old.count }
    ensures order { IsOrder (λ role node. linked roles.now node role) (holds affected.now) (holds placed.new.nodes) into.new placed.new.count }
    ensures wave { (to_look_at : ℕ → Bool) →
        IsWave (λ role node. linked roles.now node role) (holds affected.now) (holds placed.old.nodes) (holds placed.old.waiting) to_look_at →
        IsWave (λ role node. linked roles.now node role) (holds affected.now) (holds placed.new.nodes) (holds placed.new.waiting)
        (λ n. to_look_at n && not (node == n)) }
    ensures done { (n : ℕ) → done (holds placed.old.nodes) (holds placed.old.waiting) n ≡ true →
        done (holds placed.new.nodes) (holds placed.new.waiting) n ≡ true }
{
    if affected.contains(node)
        && !placed.nodes.contains(node)
        && !awaits_role(links_of(roles, node), affected, &placed.nodes)
    {
        placed.nodes.insert(node);
        placed.waiting.insert(node);
        into[placed.count] = node;
        placed.count += 1;
    }
}

// Whether some link leads to an affected node without a place.
fn awaits_role(links: &[Link], affected: &NodeSet, placed: &NodeSet) -> bool
    requires { All IsWithin links.now }
    ensures { result ≡ list_any (λ link. holds affected.now link.to && not (holds placed.now link.to)) links.now }
{
    for link in links {
        if affected.contains(link.to) && !placed.contains(link.to) {
            return true;
        }
    }
    false
}
