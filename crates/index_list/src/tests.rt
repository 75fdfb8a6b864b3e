use crate::Arena;
use addr_base::OutOfMemory;
use std::alloc::Global;
use std::marker::Model;
use std::process::Abort;
use std::test::Fail;

// Four nodes and two lists.
#[derive(Drop)]
struct Four {
    arena: Arena,
}

impl Model for Four {
    ghost use Rattle.std.specs.Prelude.{◌≡◌, length};
    ghost use Rattle.index_list.specs.Arena.{ArenaView};

    ghost Value = { ArenaView };

    ghost view = { λ four. four.arena };

    ghost invariant = { λ four. (four.arena.nodes ≡ 4) × (length four.arena.lists ≡ 2) };
}

impl Four {
    fn opened(alloc: Global) -> Result<Four, OutOfMemory> {
        let arena = Arena::new(alloc, 4, 2)?;
        Ok(Four { arena })
    }

    fn put(&mut self, rt: &impl Abort, list: u32, node: u32) {
        assert!(rt; list < 2 && node < 4);
        assert_eq!(rt; self.arena.list_of(node), None);
        self.arena.push_back(list, node);
    }

    fn take(&mut self, rt: &impl Abort, node: u32) {
        assert!(rt; node < 4);
        assert!(rt; self.arena.list_of(node).is_some());
        self.arena.remove(node);
    }

    fn pop(&mut self, rt: &impl Abort, list: u32) -> Option<u32> {
        assert!(rt; list < 2);
        self.arena.pop_front(list)
    }

    fn front(&self, rt: &impl Abort, list: u32) -> Option<u32> {
        assert!(rt; list < 2);
        self.arena.front(list)
    }

    fn next(&self, rt: &impl Abort, node: u32) -> Option<u32> {
        assert!(rt; node < 4);
        self.arena.next(node)
    }

    fn list_of(&self, rt: &impl Abort, node: u32) -> Option<u32> {
        assert!(rt; node < 4);
        self.arena.list_of(node)
    }
}

#[test]
fn a_node_taken_out_joins_its_neighbors(rt: HostRuntime) -> Result<(), Fail> {
    let mut four = Four::opened(rt.alloc())?;
    for node in 0..3 {
        four.put(&rt, 0, node);
    }
    four.take(&rt, 1);
    assert_eq!(rt; four.next(&rt, 0), Some(2));
    assert_eq!(rt; four.list_of(&rt, 1), None);
    let popped = four.pop(&rt, 0);
    assert_eq!(rt; popped, Some(0));
    assert_eq!(rt; four.front(&rt, 0), Some(2));
    Ok(())
}

#[test]
fn nodes_leave_in_the_order_in_which_they_came(rt: HostRuntime) -> Result<(), Fail> {
    let mut four = Four::opened(rt.alloc())?;
    for (list, node) in [(1, 3), (0, 2), (1, 0)] {
        four.put(&rt, list, node);
    }
    for (node, list, after) in [
        (0, Some(1), None),
        (1, None, None),
        (2, Some(0), None),
        (3, Some(1), Some(0)),
    ] {
        assert_eq!(rt; four.list_of(&rt, node), list, "node {node}");
        assert_eq!(rt; four.next(&rt, node), after, "node {node}");
    }
    for popped in [Some(3), Some(0), None] {
        let first = four.pop(&rt, 1);
        assert_eq!(rt; first, popped);
    }
    four.put(&rt, 0, 3);
    four.take(&rt, 2);
    assert_eq!(rt; four.front(&rt, 0), Some(3));
    Ok(())
}
