//! How the parts of a token are dealt to its passes, and gathered again.
ghost use Rattle.std.specs.Prelude.{◌≡◌, ◌≤◌, [], ◌++◌, All, map, vec_capacity};
ghost use Rattle.cpu_token.specs.Passes.{fresh_passes};
ghost use Rattle.cpu_token.specs.Parts.{fresh_parts, shown_part, IsIdle};

use crate::part::{FirstOff, Gather, Key, TokenSeat, TokenTable};
use crate::pass::Pass;
use crate::stepped::Stepped;
use std::snapshot::Snapshot;

// The seat has the parts of all passes. Each pass gets the first of those that are left.
pub(crate) fn deal<V: Stepped>(
    table: &TokenTable<V>,
    mut seat: TokenSeat<V>,
    key: &Key<V>,
    list: &mut Vec<Pass<V>>,
)
    requires words { table.now.shared.table_id.words ≡ 1 }
    requires of { seat.table_id ≡ table.now.shared.table_id }
    requires all { seat.me
        ≡ (fresh_parts V V.Entry key.now.passes (V.fixed key.now.start.value), []) }
    requires some { 1 ≤ key.now.passes }
    requires room { (list.old.items ≡ []) × (key.now.passes ≤ vec_capacity list.old) }

    ensures { list.new.items ≡ fresh_passes V.Entry table.now.shared.table_id
        (V.fixed key.now.start.value) key.now.passes }
{
    for _ in 1..key.passes {
        let next = table.shared.split_seat::<FirstOff>(&mut seat);
        let start = Snapshot::of(key);
        list.push_reserved(Pass { seat: next, start });
    }
    let start = Snapshot::of(key);
    list.push_reserved(Pass { seat, start });
}

// The seat takes in the parts of all passes.
pub(crate) fn gather<V: Stepped>(
    table: &TokenTable<V>,
    seat: &mut TokenSeat<V>,
    mut passes: Vec<Pass<V>>,
)
    requires words { table.now.shared.table_id.words ≡ 1 }
    requires of { seat.old.table_id ≡ table.now.shared.table_id }
    requires all { All (λ p. p.token ≡ table.now.shared.table_id) passes.items }

    ensures stays { (seat.new.table_id ≡ seat.old.table_id) × (seat.new.me.1 ≡ seat.old.me.1) }
    ensures parts { passes.items ++ map (shown_part table.now.shared.table_id) seat.old.me.0
        ≡ map (shown_part table.now.shared.table_id) seat.new.me.0 }
    ensures idle { All IsIdle seat.old.me.0 → All IsIdle seat.new.me.0 }
{
    while let Some(pass) = passes.pop() {
        let Pass {
            seat: other,
            start: _,
        } = pass;
        table.shared.join_seat::<Gather>(seat, other);
    }
    passes.destroy_empty();
}
