ghost use Rattle.std.specs.Prelude.{◌≡◌, ◌<◌, [], ◌∷◌, IfOk};
ghost use Rattle.machine_core.specs.Journal.{noted};

use flat_model::{Items, Logged, OutOfMemory};
use std::alloc::Global;
use std::marker::Model;

/// The items of a machine's log, with room for those that may come. Nothing that it does takes memory, but its making.
#[derive(Drop)]
pub(crate) struct Journal {
    items: Vec<Logged>,
}

impl Model for Journal {
    ghost use Rattle.std.specs.Prelude.{◌-◌, ◌≤◌, length, vec_capacity};
    ghost use Rattle.machine_core.specs.Journal.{JournalState};

    ghost Value = { JournalState };

    ghost view = { λ j. record {
      items = j.items.items;
      room = vec_capacity j.items - length j.items.items;
    } };

    ghost invariant = { λ j. length j.items.items ≤ vec_capacity j.items };
}

impl Journal {
    /// An empty journal with room for so many items.
    pub fn new(alloc: Global, room: usize) -> Result<Journal, OutOfMemory>
        ensures { IfOk result (λ journal. journal ≡ record { items = []; room = room }) }
    {
        let items = Vec::with_capacity(alloc, room)?;
        Ok(Journal { items })
    }

    /// Notes an item.
    pub fn note(&mut self, item: Logged)
        requires { 0 < self.old.room }
        ensures { self.new ≡ noted self.old (item ∷ []) }
    {
        self.items.push_reserved(item);
    }

    /// The items.
    pub fn into_items(self) -> Items<Logged>
        ensures { result ≡ self.items }
    {
        let Journal { items } = self;
        Items::from_vec(items)
    }
}
