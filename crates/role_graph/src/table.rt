//! Links in order by both their nodes.
ghost use Rattle.std.specs.Prelude.{◌≡◌, ◌<◌, ◌≤◌, ◌+◌, ◌==◌, ◌&&◌, ◌||◌, ℕ, Bool, true, false, not, filter, length, count_by, slice_set, vec_capacity, vec_len, IfOk, IfErr, if◌then◌else◌};
ghost use Rattle.std.specs.List.{list_any, slice_index_or, insert};
ghost use Rattle.role_graph.specs.declared.link.Link.{Link};
ghost use Rattle.role_graph.specs.Edges.{IsTable, IsWithin, is_link, is_admin_link, linked, rank, touches};

use crate::closure::rank_start;
use crate::link::Link;

// Makes the link stand. Where one stands already, it keeps its admin option or gains this one's.
pub fn put(links: &mut Vec<Link>, link: Link)
    requires table { IsTable links.old.items }
    requires within { IsWithin link }
    requires room { vec_len links.old < vec_capacity links.old }
    ensures table { IsTable links.new.items }
    ensures capacity { vec_capacity links.new ≡ vec_capacity links.old }
    ensures counts { (p : ℕ → ℕ → Bool) → count_by (λ l. p l.from l.to) links.new.items ≡
        count_by (λ l. p l.from l.to) links.old.items
        + (if linked links.old.items link.from link.to then 0 else (if p link.from link.to then 1 else 0)) }
    ensures admin { (from to : ℕ) → list_any (is_admin_link from to) links.new.items ≡
        (list_any (is_admin_link from to) links.old.items || is_admin_link from to link) }
{
    match place_of(links, link) {
        Ok(place) => allow(links, place, link.admin),
        Err(place) => insert_at(links, place, link),
    }
}

// Where the link of these two nodes stands, or where it would.
pub fn place_of(links: &[Link], link: Link) -> Result<usize, usize>
    requires { IsTable links.now }
    ensures inside { IfOk result (λ place. place < length links.now) }
    ensures found { IfOk result (λ place. (d : Link) → is_link link.from link.to (slice_index_or links.now place d) ≡ true) }
    ensures stands { IfOk result (λ place. linked links.now link.from link.to ≡ true) }
    ensures within { IfErr result (λ place. place ≤ length links.now) }
    ensures before { IfErr result (λ place. (k : ℕ) (d : Link) → k < place → rank (slice_index_or links.now k d) ≤ rank link) }
    ensures after { IfErr result (λ place. (k : ℕ) (d : Link) → place ≤ k → k < length links.now → rank link ≤ rank (slice_index_or links.now k d)) }
    ensures absent { IfErr result (λ place. linked links.now link.from link.to ≡ false) }
{
    let place = rank_start(links, link.rank());
    match links.get(place) {
        Some(found) if found.from == link.from && found.to == link.to => Ok(place),
        _ => Err(place),
    }
}

// Gives the link at a place the admin option, where it is wanted.
fn allow(links: &mut Vec<Link>, place: usize, admin: bool)
    requires { place < vec_len links.old }
    ensures capacity { vec_capacity links.new ≡ vec_capacity links.old }
    ensures len { vec_len links.new ≡ vec_len links.old }
    ensures items { (d : Link) → links.new.items ≡ slice_set links.old.items place
        (record (slice_index_or links.old.items place d) { admin = (slice_index_or links.old.items place d).admin || admin }) }
{
    links[place].admin |= admin;
}

fn insert_at(links: &mut Vec<Link>, place: usize, link: Link)
    requires inside { place ≤ vec_len links.old }
    requires room { vec_len links.old < vec_capacity links.old }
    ensures capacity { vec_capacity links.new ≡ vec_capacity links.old }
    ensures items { links.new.items ≡ insert links.old.items place link }
{
    links.insert(place, link).unwrap();
}

// Takes out the link from one node to another.
pub fn remove_link(links: &mut Vec<Link>, from: u32, to: u32)
    ensures capacity { vec_capacity links.new ≡ vec_capacity links.old }
    ensures items { links.new.items ≡ filter (λ link. not (is_link from to link)) links.old.items }
{
    links.retain(|link| !(link.from == from && link.to == to));
}

// Takes out each link that begins or ends at the node.
pub fn remove_node(links: &mut Vec<Link>, node: u32)
    ensures capacity { vec_capacity links.new ≡ vec_capacity links.old }
    ensures items { links.new.items ≡ filter (λ link. not (touches node link)) links.old.items }
{
    links.retain(|link| !(link.from == node || link.to == node));
}
