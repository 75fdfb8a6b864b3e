//! The token, whose calls take a pass and hand it back.
ghost use Rattle.std.specs.Prelude.{◌≡◌, [], ◌∷◌, Some};

use crate::part::{Claim, Give, Key, Look, TokenTable};
use crate::pass::{Hold, Pass};
use crate::seats::{deal, gather};
use crate::stepped::Stepped;
use addr_base::OutOfMemory;
use atomic_table::{Refused, Table};
use std::alloc::Global;
use std::marker::Model;
use std::snapshot::Snapshot;

/// A value that passes hand round. Its word is even while the value is at home, and odd while a
/// pass holds it.
#[derive(Drop)]
pub struct Token<V: Stepped> {
    table: TokenTable<V>,
}

impl<V: Stepped> Model for Token<V> {
    ghost use Rattle.std.specs.Prelude.{◌≡◌, ◌≤◌};
    ghost use Rattle.cpu_token.specs.Passes.{TokenValue};

    ghost Value = { TokenValue };

    ghost view = { λ a. record {
      id = a.table.shared.table_id;
      passes = a.table.shared.key.passes;
    } };

    ghost invariant = { λ a. (a.table.shared.table_id.words ≡ 1)
        × (a.table.shared.table_id.slots ≡ 1) × (1 ≤ a.table.shared.key.passes) };
}

/// What came of an attempt to take the value.
pub enum Tried<V: Stepped> {
    /// The pass took the value.
    Hold(Hold<V>),
    /// Another pass has the value, or had it between the two reads of the word.
    Busy {
        seen: u64,
        found: u64,
        pass: Pass<V>,
    },
}

impl<V: Stepped> Token<V> {
    ghost use Rattle.std.specs.Prelude.{◌≡◌, ◌≢◌, ℕ, ◌≤◌, [], All, IfOk, IfErr};
    ghost use Rattle.cpu_token.specs.Passes.{AreAll, BeginsWith, fresh_passes, given_pass};
    ghost use Rattle.cpu_token.specs.Told.{HasTried};

    /// Makes a token over a value without entries, and its passes in the order of their numbers,
    /// which start at 0.
    pub fn new(
        alloc: Global,
        value: V,
        passes: u32,
    ) -> Result<(Token<V>, Vec<Pass<V>>), (V, OutOfMemory)>
        requires some { 1 ≤ passes }
        requires fresh { (k : ℕ) → V.entries value k ≡ [] }

        ensures ok { IfOk result (λ t. (t.0.passes ≡ passes)
            × (t.1.items ≡ fresh_passes V.Entry t.0.id (V.fixed value) passes)) }
        ensures err { IfErr result (λ e. e.0 ≡ value) }
    {
        let key = Key {
            passes,
            start: Snapshot::of(&value),
        };
        let Ok(mut list) = Vec::with_capacity(alloc, passes as usize) else {
            return Err((value, OutOfMemory));
        };
        let Ok(mut slots) = Vec::with_capacity(alloc, 1) else {
            list.destroy_empty();
            return Err((value, OutOfMemory));
        };
        slots.push_reserved(Some(value));
        match Table::new(alloc, &[0], slots, &key) {
            Ok((table, seat)) => {
                deal(&table, seat, &key, &mut list);
                Ok((Token { table }, list))
            }
            Err(Refused { slots }) => {
                list.destroy_empty();
                Err((only_value(slots), OutOfMemory))
            }
        }
    }

    /// Takes the value, where it is at home and no other pass takes it first.
    pub fn try_take(&self, pass: Pass<V>) -> Tried<V>
        requires of { pass.token ≡ self.now.id }

        ensures { HasTried V.entries V.fixed pass result }
    {
        let Pass { mut seat, start } = pass;
        let shared = &self.table.shared;
        let seen = shared.load::<Look>(&mut seat, 0);
        if seen % 2 == 1 {
            let pass = Pass { seat, start };
            return Tried::Busy {
                seen,
                found: seen,
                pass,
            };
        }
        let word = seen + 1;
        let found = shared.compare_exchange::<Claim>(&mut seat, 0, seen, word);
        if found != seen {
            let pass = Pass { seat, start };
            return Tried::Busy { seen, found, pass };
        }
        let slot = shared.exchange(&mut seat, 0, None);
        let Some(value) = slot else { unreachable!() };
        let out = Snapshot::of(&value);
        Tried::Hold(Hold {
            seat,
            start,
            word,
            value,
            out,
        })
    }

    /// Puts the value back, of which no more may have changed than that entries of the pass's
    /// number came behind the others.
    pub fn give(&self, hold: Hold<V>) -> Pass<V>
        requires of { hold.pass.token ≡ self.now.id }
        requires fixed { V.fixed hold.value ≡ V.fixed hold.out }
        requires others { (k : ℕ) → k ≢ hold.pass.number
            → V.entries hold.value k ≡ V.entries hold.out k }
        requires grew { BeginsWith (V.entries hold.value hold.pass.number)
            (V.entries hold.out hold.pass.number) }

        ensures { result ≡ given_pass (V.entries hold.value hold.pass.number) hold.pass }
    {
        let Hold {
            mut seat,
            start,
            word,
            value,
            out: _,
        } = hold;
        let shared = &self.table.shared;
        let slot = shared.exchange(&mut seat, 0, Some(value));
        let None = slot else { unreachable!() };
        shared.swap::<Give>(&mut seat, 0, word.wrapping_add(1));
        Pass { seat, start }
    }

    /// Ends the token, once all passes are back.
    pub fn close(self, mut passes: Vec<Pass<V>>) -> V
        requires all { AreAll self passes.items }

        ensures fixed { All (λ p. V.fixed result ≡ p.fixed) passes.items }
        ensures entries { All (λ p. V.entries result p.number ≡ p.entries) passes.items }
        ensures none { (k : ℕ) → self.passes ≤ k → V.entries result k ≡ [] }
    {
        let Token { table } = self;
        let Some(last) = passes.pop() else {
            unreachable!()
        };
        let Pass { mut seat, start: _ } = last;
        gather(&table, &mut seat, passes);
        let mut closed = table.close_with(seat);
        let slot = closed.take(0);
        closed.free();
        let Some(value) = slot else { unreachable!() };
        value
    }
}

fn only_value<V>(mut slots: Vec<Option<V>>) -> V
    requires { (v : V) × (slots.items ≡ Some v ∷ []) }
    ensures { slots.items ≡ Some result ∷ [] }
{
    let Some(slot) = slots.pop() else {
        unreachable!()
    };
    slots.destroy_empty();
    let Some(value) = slot else { unreachable!() };
    value
}
