//! Roles that are granted to nodes.
ghost use Rattle.std.specs.Prelude.{◌≡◌, ◌<◌, ◌≤◌, ◌+◌, ◌==◌, ◌&&◌, ◌||◌, ◌↔◌, ℕ, [], not, length, count_by, slice_index, take, All, IsTrue, IfOk, IfSome, OnOk, is_some, if◌then◌else◌};
ghost use Rattle.std.specs.List.{list_any};
ghost use Rattle.role_graph.specs.Nodes.{holds};
ghost use Rattle.role_graph.specs.Paths.{IsFreeOfLoops, Reaches};
ghost use Rattle.role_graph.specs.Edges.{IsWithin, granted, is_link, leads_to, leads_with_admin, with_admin};

use crate::NodeSet;
use crate::closure::{closure, links_of};
use crate::link::Link;
use crate::order::order;
use crate::table::{place_of, put, remove_link, remove_node};
use std::alloc::{AllocError, Global};
use std::marker::Model;

/// What became of an edge that was to be added.
#[derive(Clone, Copy, Debug, PartialEq, Eq)]
pub enum Added {
    /// It stands.
    Ok,
    /// It would lead back to where it begins, so nothing changed.
    Loop,
}

/// Which node is granted to which as a role, and with which option. Nodes are numbers below 4,096.
///
/// MySQL 8.0 Reference Manual, "Using Roles".
#[derive(Drop)]
pub struct Graph {
    // From each holder to its roles, and from each role to its holders.
    roles: Vec<Link>,
    holders: Vec<Link>,
}

impl Model for Graph {
    ghost use Rattle.std.specs.Prelude.{min, ◌-◌, length, vec_capacity};
    ghost use Rattle.role_graph.specs.Edges.{Edges, IsGraph};

    ghost Value = { Edges };

    ghost view = { λ g. record {
      links = g.roles.items;
      room = min (vec_capacity g.roles) (vec_capacity g.holders) - length g.roles.items;
    } };

    ghost invariant = { λ g. IsGraph g.roles.items g.holders.items };
}

impl Graph {
    /// The graph without edges, which takes no memory.
    pub fn new(alloc: Global) -> Graph
        ensures links { result.links ≡ [] }
        ensures room { result.room ≡ 0 }
    {
        Graph {
            roles: Vec::new(alloc),
            holders: Vec::new(alloc),
        }
    }

    /// How many edges there are.
    pub fn len(&self) -> usize
        ensures { result ≡ length self.now.links }
    {
        self.roles.len()
    }

    /// Whether there is no edge.
    pub fn is_empty(&self) -> bool
        ensures { IsTrue result ↔ (length self.now.links ≡ 0) }
    {
        self.len() == 0
    }

    /// The same edges in memory of their own.
    pub fn copy(&self, alloc: Global) -> Result<Graph, AllocError>
        ensures { IfOk result (λ made. made.links ≡ self.now.links) }
    {
        Ok(Graph {
            roles: Vec::from_slice(alloc, &self.roles)?,
            holders: Vec::from_slice(alloc, &self.holders)?,
        })
    }

    /// Makes room for so many edges more.
    pub fn reserve(&mut self, edges: u32) -> Result<(), AllocError>
        ensures ok { OnOk result (edges ≤ self.new.room) }
        ensures links { self.new.links ≡ self.old.links }
        ensures room { self.old.room ≤ self.new.room }
    {
        self.roles.reserve(edges as usize)?;
        self.holders.reserve(edges as usize)?;
        Ok(())
    }

    /// All that the node holds, directly or through others, and the node itself.
    pub fn reach(&self, node: u32) -> NodeSet
        requires { node < 4096 }
        ensures { (other : ℕ) → IsTrue (holds result other) ↔ Reaches (granted self.now) node other }
    {
        closure(&self.roles, node)
    }

    /// All that hold the node, directly or through others, and the node itself.
    pub fn reached_by(&self, node: u32) -> NodeSet
        requires { node < 4096 }
        ensures { (other : ℕ) → IsTrue (holds result other) ↔ Reaches (granted self.now) other node }
    {
        closure(&self.holders, node)
    }

    /// Grants a role to a node. An edge that stands keeps its admin option or gains this one.
    pub fn add_edge(&mut self, role: u32, to: u32, admin: bool) -> Added
        requires role { role < 4096 }
        requires to { to < 4096 }
        requires room { 0 < self.old.room }
        ensures refused { (result ≡ Added.Loop) ↔ Reaches (granted self.old) role to }
        ensures unchanged { result ≡ Added.Loop → self.new ≡ self.old }
        ensures granted { result ≡ Added.Ok → (r h : ℕ) → granted self.new r h ≡
            (granted self.old r h || (r == role && h == to)) }
        ensures admin { result ≡ Added.Ok → (r h : ℕ) → with_admin self.new r h ≡
            (with_admin self.old r h || (r == role && h == to && admin)) }
        ensures room { result ≡ Added.Ok →
            self.new.room + (if granted self.old role to then 0 else 1) ≡ self.old.room }
    {
        if self.reach(role).contains(to) {
            return Added::Loop;
        }
        put(
            &mut self.roles,
            Link {
                from: to,
                to: role,
                admin,
            },
        );
        put(
            &mut self.holders,
            Link {
                from: role,
                to,
                admin,
            },
        );
        Added::Ok
    }

    /// Whether a role that is granted to a node is so with the admin option. `None` where it is not granted.
    pub fn admin_of(&self, role: u32, to: u32) -> Option<bool>
        requires role { role < 4096 }
        requires to { to < 4096 }
        ensures stands { is_some result ≡ granted self.now role to }
        ensures admin { IfSome result (λ admin. admin ≡ with_admin self.now role to) }
    {
        let link = Link {
            from: to,
            to: role,
            admin: false,
        };
        match place_of(&self.roles, link) {
            Ok(place) => Some(self.roles[place].admin),
            Err(_) => None,
        }
    }

    /// The roles that are granted to the node, each as a link from the node to the role.
    pub fn roles_of(&self, node: u32) -> &[Link]
        requires { node < 4096 }
        ensures within { All IsWithin result.now }
        ensures granted { (role : ℕ) → list_any (leads_to role) result.now ≡ granted self.now role node }
        ensures admin { (role : ℕ) → list_any (leads_with_admin role) result.now ≡ with_admin self.now role node }
    {
        links_of(&self.roles, node)
    }

    /// The nodes to which the node is granted, each as a link from the node to its holder. Their admin options are left open.
    pub fn holders_of(&self, node: u32) -> &[Link]
        requires { node < 4096 }
        ensures within { All IsWithin result.now }
        ensures granted { (holder : ℕ) → list_any (leads_to holder) result.now ≡ granted self.now node holder }
    {
        links_of(&self.holders, node)
    }

    /// Takes a role from a node, and answers whether the edge stood.
    pub fn remove_edge(&mut self, role: u32, to: u32) -> bool
        requires role { role < 4096 }
        requires to { to < 4096 }
        ensures stood { result ≡ granted self.old role to }
        ensures granted { (r h : ℕ) → granted self.new r h ≡
            (granted self.old r h && not (r == role && h == to)) }
        ensures admin { (r h : ℕ) → with_admin self.new r h ≡
            (with_admin self.old r h && not (r == role && h == to)) }
        ensures room { self.new.room ≡ self.old.room + (if result then 1 else 0) }
    {
        let before = self.roles.len();
        remove_link(&mut self.roles, to, role);
        remove_link(&mut self.holders, role, to);
        self.roles.len() < before
    }

    /// Takes away each edge from and to the node.
    pub fn drop_node(&mut self, node: u32)
        requires { node < 4096 }
        ensures granted { (r h : ℕ) → granted self.new r h ≡
            (granted self.old r h && not (r == node || h == node)) }
        ensures admin { (r h : ℕ) → with_admin self.new r h ≡
            (with_admin self.old r h && not (r == node || h == node)) }
        ensures room { self.new.room + length self.new.links ≡ self.old.room + length self.old.links }
    {
        remove_node(&mut self.roles, node);
        remove_node(&mut self.holders, node);
    }

    /// Writes the affected nodes, each after those of its roles that are affected, and answers how many there are.
    ///
    /// What stands behind them is left open.
    pub fn order_of(&self, affected: &NodeSet, into: &mut [u32; 4096]) -> usize
        ensures within { result ≤ 4096 }
        ensures once { (n : ℕ) → count_by (λ x. x == n) (take result into.new) ≡
            (if holds affected.now n then 1 else 0) }
        ensures roles_first { (i j : ℕ) → i < result → j < result →
            IsTrue (granted self.now (slice_index into.new i) (slice_index into.new j)) → i < j }
    {
        order(&self.roles, &self.holders, affected, into)
    }

    /// The law that no path of edges leads back to where it began. It does nothing when it runs.
    pub fn has_no_loops(&self)
        ensures { IsFreeOfLoops (granted self.now) }
    {
        let _ = &self.roles;
    }

    /// The law that each edge is listed once, between nodes below 4,096. It does nothing when it runs.
    pub fn lists_each_edge_once(&self)
        ensures once { (from to : ℕ) → count_by (is_link from to) self.now.links ≤ 1 }
        ensures within { All IsWithin self.now.links }
    {
        let _ = &self.roles;
    }
}
