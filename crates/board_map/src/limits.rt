ghost use Rattle.std.specs.Prelude.{◌≡◌, ◌+◌, nat_lt};
ghost use Rattle.flat_model.specs.First.{number};
ghost use Rattle.toml.specs.View.{items_view, table_view, view};
ghost use Rattle.toml.specs.Data.{as_str};
ghost use Rattle.board_map.specs.Values.{after, is_long, is_over, owns, ring_words, rings, steps_of};
ghost use Rattle.board_map.specs.Tree.{count};

use crate::rows::{Form, Limit};
use crate::totals::Totals;
use crate::tree::{array_at, count, flag_at, integer_at, value_at};
use flat_model::Key;
use toml::{Table, Value};

// Whether a script word stands for a ring.
fn rings(value: &Value) -> bool
    ensures { result ≡ rings (as_str (view value.now)) }
{
    match value.as_str() {
        Some(text) => text.as_bytes().starts_with(b"ring "),
        None => false,
    }
}

// How many script words stand for rings.
fn ring_words(items: &[Value]) -> usize
    ensures { result ≡ ring_words (items_view items.now) }
{
    let mut found = 0;
    for item in items {
        if rings(item) {
            found += 1;
        }
    }
    found
}

// Whether there are more elements than `most`.
#[tactic(auto, using(crate::proofs::Trees::count_of_items))]
fn are_more(items: &[Value], most: u32) -> bool
    ensures { result ≡ nat_lt most (count (items_view items.now)) }
{
    items.len() > most as usize
}

/// The steps of a thread.
pub fn steps_of(table: &Table) -> u32
    ensures { result ≡ steps_of (table_view table.now) }
{
    integer_at(table, Key::Steps, 1, 100000, 10000)
}

// A sum as the input's numbers are kept.
fn sum(a: u32, b: u32) -> u32
    ensures { result ≡ number (a + b) }
{
    a.saturating_add(b)
}

// Whether the script has too many words, or too many for rings.
#[tactic(auto, using(crate::proofs::Trees::count_of_items))]
fn is_long(items: &[Value]) -> bool
    ensures { result ≡ is_long (items_view items.now) }
{
    items.len() > 250000 || ring_words(items) > 10000
}

impl Limit {
    /// Whether the list or sum at a key passes the limit, in a table behind others.
    #[tactic(auto, unfolding(crate::specs::Values::is_over))]
    pub fn is_over(self, key: Key, totals: Totals, table: &Table) -> bool
        ensures { result ≡ is_over self key totals (table_view table.now) }
    {
        let items = array_at(table, key);
        match self {
            Limit::Free => false,
            Limit::Items(most) => are_more(items, most),
            Limit::Script => is_long(items),
            Limit::Threads => sum(totals.threads, count(items)) > 16,
            Limit::Steps => sum(totals.steps, steps_of(table)) > 250000,
            Limit::Rings => sum(totals.rings, count(items)) > 10000,
        }
    }
}

impl Totals {
    /// What the tables say up to one more.
    #[tactic(auto, unfolding(crate::specs::Values::after))]
    pub fn after(self, form: Form, table: &Table) -> Totals
        ensures { result ≡ after form (table_view table.now) self }
    {
        match form {
            Form::Board => Totals {
                secret_free: value_at(table, Key::Secret).is_some(),
                ..self
            },
            Form::AtBox => Totals {
                secret_free: self.secret_free && !owns(table),
                threads: sum(self.threads, count(array_at(table, Key::Thread))),
                ..self
            },
            Form::Thread => Totals {
                steps: sum(self.steps, steps_of(table)),
                ..self
            },
            Form::Device => Totals {
                rings: sum(self.rings, count(array_at(table, Key::Rings))),
                ..self
            },
            _ => self,
        }
    }
}

/// Whether the box takes the secret.
pub fn owns(table: &Table) -> bool
    ensures { result ≡ owns (table_view table.now) }
{
    flag_at(table, Key::Secret).unwrap_or(false)
}
