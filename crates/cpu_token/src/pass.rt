//! A pass to the token, and what it becomes while it holds the value.
use crate::part::{Key, TokenSeat};
use crate::stepped::Stepped;
use std::marker::Model;
use std::snapshot::Snapshot;

/// The right to take the value. Whoever has it alone adds to the entries of its number.
#[derive(Drop)]
pub struct Pass<V: Stepped> {
    pub(crate) seat: TokenSeat<V>,
    pub(crate) start: Snapshot<Key<V>>,
}

impl<V: Stepped> Model for Pass<V> {
    ghost use Rattle.cpu_token.specs.Passes.{PassValue};
    ghost use Rattle.cpu_token.specs.Parts.{IsPass, pass_value};

    ghost Value = { PassValue V.Entry V.Fixed };

    ghost view = { λ a. pass_value a.seat.table_id (V.fixed a.start.value.start.value)
        a.seat.me.0 };

    ghost invariant = { λ a. IsPass (V.fixed a.start.value.start.value) a.seat.me };
}

/// A pass that holds the value. It must be given back.
pub struct Hold<V: Stepped> {
    pub(crate) seat: TokenSeat<V>,
    pub(crate) start: Snapshot<Key<V>>,
    pub(crate) word: u64,
    pub(crate) value: V,
    pub(crate) out: Snapshot<V>,
}

impl<V: Stepped> Model for Hold<V> {
    ghost use Rattle.cpu_token.specs.Passes.{HoldValue};
    ghost use Rattle.cpu_token.specs.Parts.{IsHold, pass_value};

    ghost Value = { HoldValue V V.Entry V.Fixed };

    ghost view = { λ a. record {
      pass = pass_value a.seat.table_id (V.fixed a.start.value.start.value) a.seat.me.0;
      value = a.value;
      out = a.out.value;
    } };

    ghost invariant = { λ a. IsHold (V.fixed a.start.value.start.value) a.word a.out.value
        a.seat.me };
}

impl<V: Stepped> Hold<V> {
    ghost use Rattle.std.specs.Prelude.{◌≡◌};
    ghost use Rattle.std.specs.Borrow.{Lends, sem};
    ghost use Rattle.cpu_token.specs.contracts.pass.Hold.{the_row};

    /// The value, to be worked on. `give` says what may have changed of it.
    pub fn value(&mut self) -> &mut V
        ensures* lends { sem 𝓛 (Lends (the_row V.row V.Entry.row V.Fixed.row V.Stepped) V.row
            self.entry result (λ w. record self.old { value = w })) }
        ensures is { result.now ≡ self.old.value }
    {
        &mut self.value
    }
}
