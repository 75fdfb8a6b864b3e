ghost use Rattle.std.specs.Prelude.{◌≡◌, ◌<◌, IfOk, Some, length, replicate, slice_get, slice_set, string_bytes};

use addr_base::OutOfMemory;
use std::alloc::Global;
use std::marker::Model;

/// A list of items over a `Vec`, which contracts see as the list alone.
#[derive(Debug, Drop)]
pub struct Items<T> {
    items: Vec<T>,
}

impl<T> Model for Items<T> {
    ghost use Rattle.std.specs.Prelude.{List};
    ghost use Rattle.std.specs.Coded.{coded_list};

    ghost Value = { List T };

    ghost coded = { coded_list T.code };

    ghost view = { λ it. it.items.items };
}

impl<T> Items<T> {
    /// The list of a vector's elements.
    pub fn from_vec(items: Vec<T>) -> Items<T>
        ensures { result ≡ items.items }
    {
        Items { items }
    }

    /// The vector that the list was made from.
    pub fn into_vec(self) -> Vec<T>
        ensures { result.items ≡ self }
    {
        let Items { items } = self;
        items
    }

    /// The vector that the list was made from.
    pub fn as_vec(&self) -> &Vec<T>
        ensures { result.now.items ≡ self.now }
    {
        &self.items
    }

    /// The elements in order.
    pub fn as_slice(&self) -> &[T]
        ensures { result.now ≡ self.now }
    {
        self.items.as_slice()
    }

    /// How many elements there are.
    pub fn len(&self) -> usize
        ensures { result ≡ length self.now }
    {
        self.items.len()
    }
}

impl<T: Copy> Items<T> {
    /// The list of `n` copies of a value.
    #[tactic(auto, using(crate::proofs::Copies::replicate_more))]
    pub fn filled(alloc: Global, value: T, n: usize) -> Result<Items<T>, OutOfMemory>
        ensures { IfOk result (λ items. items ≡ replicate n value) }
    {
        let mut items = Vec::with_capacity(alloc, n)?;
        for _ in 0..n {
            items.push(value)?;
        }
        Ok(Items { items })
    }

    /// The same list again.
    pub fn copied(&self, alloc: Global) -> Result<Items<T>, OutOfMemory>
        ensures { IfOk result (λ copy. copy ≡ self.now) }
    {
        let items = Vec::from_slice(alloc, self.as_slice())?;
        Ok(Items { items })
    }

    /// The element at `index`.
    pub fn at(&self, index: usize) -> T
        requires { index < length self.now }
        ensures { slice_get self.now index ≡ Some result }
    {
        self.items[index]
    }

    /// Puts a value in the place of the element at `index`.
    pub fn set(&mut self, index: usize, value: T)
        requires { index < length self.old }
        ensures { self.new ≡ slice_set self.old index value }
    {
        self.items[index] = value;
    }

    /// Puts a value in the place of the element at `index`, if there is one.
    #[tactic(auto, using(std::proofs::lemmas::List::set_past))]
    pub fn put(&mut self, index: usize, value: T)
        ensures { self.new ≡ slice_set self.old index value }
    {
        if index < self.len() {
            self.set(index, value);
        }
    }
}

/// A text over a `String`, which contracts see as the list of its bytes.
#[derive(Debug, Drop)]
pub struct Text {
    text: String,
}

impl Model for Text {
    ghost use Rattle.std.specs.Prelude.{List, ℕ, string_bytes};
    ghost use Rattle.std.specs.Coded.{coded_list, coded_ℕ};

    ghost Value = { List ℕ };

    ghost coded = { coded_list coded_ℕ };

    ghost view = { λ t. string_bytes t.text };
}

impl Text {
    /// The text of a string's bytes.
    pub fn from_string(text: String) -> Text
        ensures { result ≡ string_bytes text }
    {
        Text { text }
    }

    /// The string that the text was made from.
    pub fn into_string(self) -> String
        ensures { string_bytes result ≡ self }
    {
        let Text { text } = self;
        text
    }

    /// The text itself.
    pub fn as_str(&self) -> &str
        ensures { result.now ≡ self.now }
    {
        self.text.as_str()
    }
}
