ghost use Rattle.std.specs.Prelude.{◌≡◌, Option, option_and_then, option_map};
ghost use Rattle.flat_model.specs.declared.refusals.Key.TheVariants as key;
ghost use Rattle.toml.specs.View.{items_view, table_view, view};
ghost use Rattle.toml.specs.Data.{as_array, as_bool, as_str};
ghost use Rattle.board_map.specs.Values.{all_fit, all_words, are_all, are_two_words, fits, fits_each, in_array, is_between, is_choice, is_place, may_own};
ghost use Rattle.board_map.specs.Tree.{natural_of, value_at};

use crate::rows::{Choice, Each, Form, Limit, Rule};
use crate::totals::Totals;
use crate::tree::{array, array_at, count, flag_at, integer_at, natural, value_at};
use flat_model::Key;
use toml::{Table, Value};

// Whether the value is an integer from `low` to `high`.
fn is_between(value: &Value, low: u32, high: u32) -> bool
    ensures { result ≡ is_between low high (view value.now) }
{
    match natural(value) {
        Some(n) => low as u64 <= n && n <= high as u64,
        None => false,
    }
}

// Whether each element is a word.
fn are_words(items: &[Value]) -> bool
    ensures { result ≡ all_words (items_view items.now) }
{
    for item in items {
        if !is_between(item, 0, 4294967295) {
            return false;
        }
    }
    true
}

// Whether there are two elements, both words.
#[tactic(auto, using(crate::proofs::Trees::count_of_items))]
fn are_two_words(items: &[Value]) -> bool
    ensures { result ≡ are_two_words (items_view items.now) }
{
    items.len() == 2 && are_words(items)
}

// Whether the value is an array of two words.
fn is_pair(value: &Value) -> bool
    ensures { result ≡ in_array are_two_words (as_array (view value.now)) }
{
    match array(value) {
        Some(items) => are_two_words(items),
        None => false,
    }
}

impl Each {
    // Whether an element is what each has to be.
    fn fits(self, value: &Value) -> bool
        ensures { result ≡ fits_each self (view value.now) }
    {
        match self {
            Each::Pair => is_pair(value),
            Each::Table => value.is_table(),
            Each::Text => value.is_str(),
            Each::Line => is_between(value, 0, 63),
        }
    }

    // Whether each element is what it has to be.
    fn all_fit(self, items: &[Value]) -> bool
        ensures { result ≡ all_fit self (items_view items.now) }
    {
        for item in items {
            if !self.fits(item) {
                return false;
            }
        }
        true
    }

    // Whether the elements are what they have to be, with one at least where `some` asks for it.
    #[tactic(auto, using(crate::proofs::Trees::count_of_items))]
    fn are_all(self, some: bool, items: &[Value]) -> bool
        ensures { result ≡ are_all self some (items_view items.now) }
    {
        if some && items.len() == 0 {
            return false;
        }
        self.all_fit(items)
    }

    // Whether the value is an array of such elements.
    fn is_array(self, some: bool, value: &Value) -> bool
        ensures { result ≡ in_array (are_all self some) (as_array (view value.now)) }
    {
        match array(value) {
            Some(items) => self.are_all(some, items),
            None => false,
        }
    }
}

impl Choice {
    // Whether the value is one of the words of the choice.
    fn is_word_of(self, value: &Value) -> bool
        ensures { result ≡ is_choice self (as_str (view value.now)) }
    {
        match value.as_str() {
            Some(text) => self.is_word(text),
            None => false,
        }
    }
}

// Whether the value is a boolean, and true only where the secret may still be taken.
fn may_own(secret_free: bool, value: &Value) -> bool
    ensures { result ≡ may_own secret_free (as_bool (view value.now)) }
{
    match value.as_bool() {
        Some(wanted) => !wanted || secret_free,
        None => false,
    }
}

// The elements of the array at a key, where the value there is an array.
fn array_of<'a>(table: &'a Table, key: Key) -> Option<&'a [Value]>
    ensures { option_map (λ s. items_view s.now) result
        ≡ option_and_then as_array (value_at key (table_view table.now)) }
{
    array(value_at(table, key)?)
}

// Whether the value is the place of a thread, where the threads are an array.
#[tactic(auto, using(crate::proofs::Trees::count_of_items))]
fn is_place(table: &Table, value: &Value) -> bool
    ensures { let threads = option_and_then as_array (value_at key.Thread (table_view table.now)) in
        result ≡ is_place threads (natural_of (view value.now)) }
{
    match natural(value) {
        Some(n) => match array_of(table, Key::Thread) {
            Some(items) => n < items.len() as u64,
            None => true,
        },
        None => false,
    }
}

impl Rule {
    /// Whether a value meets the rule, in a table behind others.
    #[tactic(auto, unfolding(crate::specs::Values::fits))]
    pub fn fits(self, totals: Totals, table: &Table, value: &Value) -> bool
        ensures { result ≡ fits self totals (table_view table.now) (view value.now) }
    {
        match self {
            Rule::Integer(low, high) => is_between(value, low, high),
            Rule::Text => value.is_str(),
            Rule::Flag => value.is_bool(),
            Rule::Word(choice) => choice.is_word_of(value),
            Rule::Pair => is_pair(value),
            Rule::Table => value.is_table(),
            Rule::Array(each, some) => each.is_array(some, value),
            Rule::Owner => may_own(totals.secret_free, value),
            Rule::Server => is_place(table, value),
        }
    }
}
