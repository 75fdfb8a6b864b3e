ghost use Rattle.std.specs.Prelude.{◌≡◌, ℕ, ◌+◌, ◌<◌, ◌↔◌, Some, None, [], IfOk, IfSome, IsSome, length, slice_get};
ghost use Rattle.index_list.specs.Arena.{AreApart, list_at, list_with, opening_arena, with_last, without_first, without_node};
ghost use Rattle.index_list.specs.Kept.{node_of};

use addr_base::OutOfMemory;
use std::alloc::Global;
use std::marker::Model;

/// Numbered nodes and numbered lists of them. A node stands in at most one list. Nothing but its making takes memory.
///
/// Each list is a ring of links: its seat comes before its first node and after its last. The seats are numbered after
/// the nodes, so neither end of a list is a case of its own.
#[derive(Drop)]
pub struct Arena {
    nodes: usize,
    next: Vec<usize>,
    prev: Vec<usize>,
    owner: Vec<Option<u32>>,
}

impl Model for Arena {
    ghost use Rattle.index_list.specs.Arena.{ArenaView};
    ghost use Rattle.index_list.specs.Kept.{IsKept, lists_of};

    ghost Value = { ArenaView };

    ghost view = { λ a. record { nodes = a.nodes; lists = lists_of a.nodes a.next.items } };

    ghost invariant = { λ a.
        IsKept a.nodes a.next.items a.prev.items a.owner.items (lists_of a.nodes a.next.items) };
}

impl Arena {
    /// So many nodes, and so many lists, all of them empty.
    pub fn new(alloc: Global, nodes: u32, lists: u32) -> Result<Arena, OutOfMemory>
        ensures { IfOk result (λ arena. arena ≡ opening_arena nodes lists) }
    {
        let most = nodes as usize + lists as usize;
        let mut next = Vec::with_capacity(alloc, most)?;
        let mut prev = Vec::with_capacity(alloc, most)?;
        let mut owner = Vec::with_capacity(alloc, most)?;
        for place in 0..most {
            next.push(place)?;
            prev.push(place)?;
        }
        for _ in 0..nodes {
            owner.push(None)?;
        }
        for list in 0..lists {
            owner.push(Some(list))?;
        }
        Ok(Arena {
            nodes: nodes as usize,
            next,
            prev,
            owner,
        })
    }

    /// Puts a node that stands in no list last in one.
    pub fn push_back(&mut self, list: u32, node: u32)
        requires list { list < length self.old.lists }
        requires node { node < self.old.nodes }
        requires free { list_with self.old.lists node ≡ None }
        ensures { self.new ≡ with_last self.old list node }
    {
        let seat = self.nodes + list as usize;
        let last = self.prev[seat];
        self.next[last] = node as usize;
        self.prev[node as usize] = last;
        self.next[node as usize] = seat;
        self.prev[seat] = node as usize;
        self.owner[node as usize] = Some(list);
    }

    /// Takes the first node of a list out of it.
    pub fn pop_front(&mut self, list: u32) -> Option<u32>
        requires { list < length self.old.lists }
        ensures first { result ≡ slice_get (list_at self.old.lists list) 0 }
        ensures none { (result ≡ None) ↔ (list_at self.old.lists list ≡ []) }
        ensures rest { self.new ≡ without_first self.old list }
        // It may be put in a list again:
        ensures free { IfSome result (λ node.
            (node < self.new.nodes) × (list_with self.new.lists node ≡ None)) }
    {
        let first = self.front(list)?;
        self.remove(first);
        Some(first)
    }

    /// Takes a node out of the list in which it stands.
    pub fn remove(&mut self, node: u32)
        requires { IsSome (list_with self.old.lists node) }
        ensures { self.new ≡ without_node self.old node }
    {
        let before = self.prev[node as usize];
        let after = self.next[node as usize];
        self.next[before] = after;
        self.prev[after] = before;
        self.owner[node as usize] = None;
    }

    /// The first node of a list.
    pub fn front(&self, list: u32) -> Option<u32>
        requires { list < length self.now.lists }
        ensures first { result ≡ slice_get (list_at self.now.lists list) 0 }
        ensures none { (result ≡ None) ↔ (list_at self.now.lists list ≡ []) }
        ensures known { AreApart self.now }
    {
        self.node_at(self.next[self.nodes + list as usize])
    }

    /// The node after another in its list. The last of a list has none, nor has one that stands in no list.
    pub fn next(&self, node: u32) -> Option<u32>
        requires { node < self.now.nodes }
        ensures follows { (list place : ℕ) →
            slice_get (list_at self.now.lists list) place ≡ Some node →
            result ≡ slice_get (list_at self.now.lists list) (place + 1) }
        ensures free { list_with self.now.lists node ≡ None → result ≡ None }
        ensures known { AreApart self.now }
    {
        self.owner[node as usize]?;
        self.node_at(self.next[node as usize])
    }

    /// The number of the list in which a node stands.
    pub fn list_of(&self, node: u32) -> Option<u32>
        requires { node < self.now.nodes }
        ensures list { result ≡ list_with self.now.lists node }
        ensures known { AreApart self.now }
    {
        self.owner[node as usize]
    }

    // The node at a place of a ring, where its seat is none.
    fn node_at(&self, place: usize) -> Option<u32>
        ensures { result ≡ node_of self.now.nodes place }
    {
        if place < self.nodes {
            Some(place as u32)
        } else {
            None
        }
    }
}
