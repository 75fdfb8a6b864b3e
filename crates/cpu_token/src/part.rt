//! What the passes know, the rule that holds between any two steps, and what each step tells.
use crate::stepped::Stepped;
use atomic_table::{Join, Play, Seat, Split, Table, TableRule};
use std::alloc::Global;
use std::collections::LinkedList;
use std::snapshot::Snapshot;

/// What one pass knows. No value of it is made.
pub(crate) struct PassPart<V, E, F> {
    pub(crate) number: u32,
    pub(crate) fixed: F,
    pub(crate) entries: LinkedList<E>,
    pub(crate) held: Option<u64>,
    pub(crate) out: Option<V>,
    pub(crate) loaded: u64,
    pub(crate) loads: u64,
    pub(crate) fetched: u64,
    pub(crate) fetches: u64,
}

pub(crate) type Parts<V> = LinkedList<PassPart<V, <V as Stepped>::Entry, <V as Stepped>::Fixed>>;

pub(crate) type TokenSeat<V> = Seat<Option<V>, Parts<V>>;

pub(crate) type TokenTable<V> = Table<Option<V>, Parts<V>, Key<V>, Handing, Global>;

/// What a token is made with: how many passes, and the value as it is then.
pub(crate) struct Key<V> {
    pub(crate) passes: u32,
    pub(crate) start: Snapshot<V>,
}

impl<V> Drop for Key<V> {
    fn drop(self) {
        let Self {
            passes: _,
            start: _,
        } = self;
    }
}

pub(crate) struct Handing;

impl<V: Stepped> TableRule<Option<V>, Parts<V>, Key<V>> for Handing {
    ghost use Rattle.cpu_token.specs.Parts.{fresh_parts};
    ghost use Rattle.cpu_token.specs.TokenRule.{TokenRule};

    ghost holds = { λ key s. TokenRule V.entries V.fixed key.passes key.start.value s };

    ghost first = { λ key. fresh_parts V V.Entry key.passes (V.fixed key.start.value) };
}

pub(crate) struct Look;

impl<V: Stepped> Play<Option<V>, Parts<V>> for Look {
    ghost use Rattle.cpu_token.specs.Plays.{looked};

    ghost then = { looked };
}

pub(crate) struct Claim;

impl<V: Stepped> Play<Option<V>, Parts<V>> for Claim {
    ghost use Rattle.cpu_token.specs.Plays.{claimed};

    ghost then = { claimed V.entries V.fixed };
}

pub(crate) struct Give;

impl<V: Stepped> Play<Option<V>, Parts<V>> for Give {
    ghost use Rattle.cpu_token.specs.Plays.{gave};

    ghost then = { gave V.entries V.fixed };
}

/// The first part goes to the new seat.
pub(crate) struct FirstOff;

impl<V, E, F> Split<LinkedList<PassPart<V, E, F>>> for FirstOff {
    ghost use Rattle.cpu_token.specs.Parts.{first_part, other_parts};

    ghost left = { other_parts };

    ghost right = { first_part };
}

/// The parts of the second seat come before those of the first.
pub(crate) struct Gather;

impl<V, E, F> Join<LinkedList<PassPart<V, E, F>>> for Gather {
    ghost use Rattle.std.specs.Prelude.{[], ◌++◌};

    ghost both = { λ v w. w ++ v };

    ghost spent = { [] };
}
