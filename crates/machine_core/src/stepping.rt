//! What a pass to a machine knows of it: what never changes, and the entries of each number.
ghost use Rattle.std.specs.Prelude.{◌≡◌, ◌≢◌, ℕ, [], ◌∷◌, ◌++◌};
ghost use Rattle.flat_model.specs.declared.events.Choice.{Choice};
ghost use Rattle.machine_core.specs.Entries.{HasGrown, fixed_part, noted_now, number_of, numbered_entries};
ghost use Rattle.machine_core.specs.View.{MachineView, after_event};

use crate::machine::Machine;
use cpu_token::Stepped;
use flat_model::{Config, Drive, Noted};

/// What of a machine never changes; with running threads that is `extra` too. No value of it is made.
pub struct MachineFixed {
    pub config: Config,
    pub drive: Drive,
    pub extra: Option<u32>,
}

impl Stepped for Machine {
    type Entry = Noted;

    type Fixed = MachineFixed;

    ghost entries = { numbered_entries };

    ghost fixed = { fixed_part };
}

/// The event of a choice adds one entry to those of its number, and none to those of any other number: a turn, a start
/// and an idle look to those of their thread, and a ring to those of its device, behind the threads. What never changes
/// stays as it was.
pub fn an_event_adds_one_entry()
    ensures own { (v : MachineView) (c : Choice) → numbered_entries (after_event v c)
        (number_of v.config c) ≡ numbered_entries v (number_of v.config c) ++ noted_now v c ∷ [] }
    ensures others { (v : MachineView) (c : Choice) (k : ℕ) → k ≢ number_of v.config c
        → numbered_entries (after_event v c) k ≡ numbered_entries v k }
    ensures grown { (v : MachineView) (c : Choice)
        → HasGrown v (after_event v c) (number_of v.config c) }
{}
