ghost use Rattle.std.specs.Prelude.{◌≡◌};
ghost use Rattle.flat_model.specs.Acting.{IsPartOf};
ghost use Rattle.flat_model.specs.Want as want_words;
ghost use Rattle.machine_core.specs.Deeds as spec;

use crate::kernel::MachineKernel;
use flat_model::{Actor, Choice, INBOX_SLOTS, Kernel, Next, ThreadId, Ticket, Want};

/// What an actor does in one event: a turn, with room for a call or without, or the event of a server that serves no
/// call: the start of a call, or an idle look.
#[derive(Clone, Copy)]
pub(crate) enum Deed {
    Turn { room: bool },
    Serve { ticket: Option<Ticket> },
}

impl Deed {
    /// What a script's word has the actor do: what it wants, with room where the inbox has a free slot, and with the
    /// oldest call that is posted to its box.
    pub fn of_script(actor: Actor<'_>, kernel: &MachineKernel, next: Next) -> Deed
        requires { IsPartOf kernel.now.config actor.who.home.0 actor.part.now }
        ensures { result ≡ spec.deed_by_want kernel.now.config kernel.now.shared
            actor.entry.who.home.0 (want_words.want_by kernel.now.config actor.entry.who
            actor.entry.part.now kernel.now.shared next) }
    {
        match actor.want(kernel, next) {
            Want::Plain => Deed::Turn { room: true },
            Want::Room(target) => Deed::Turn {
                room: kernel.posted(target) < INBOX_SLOTS,
            },
            Want::Next => Deed::Serve {
                ticket: kernel.oldest(actor.who.home),
            },
        }
    }

    /// The choice that a thread makes by it.
    pub fn choice(self, t: ThreadId) -> Choice
        ensures { result ≡ spec.choice_by t self }
    {
        match self {
            Deed::Turn { room } => Choice::Turn { t, room },
            Deed::Serve {
                ticket: Some(ticket),
            } => Choice::Start { t, ticket },
            Deed::Serve { ticket: None } => Choice::Idle { t },
        }
    }
}

/// What has an actor act: a script's word, or a call that says what it does.
#[derive(Clone, Copy)]
pub(crate) enum Order {
    Word,
    Given(Deed),
}

impl Order {
    /// What it has the actor do, whose turn comes to this.
    pub fn deed(self, actor: Actor<'_>, kernel: &MachineKernel, next: Next) -> Deed
        requires { IsPartOf kernel.now.config actor.who.home.0 actor.part.now }
        ensures { result ≡ spec.deed_by_order kernel.now.config kernel.now.shared
            actor.entry.who.home.0 (want_words.want_by kernel.now.config actor.entry.who
            actor.entry.part.now kernel.now.shared next) self }
    {
        match self {
            Order::Word => Deed::of_script(actor, kernel, next),
            Order::Given(deed) => deed,
        }
    }

    /// The choice of a thread that does nothing.
    pub fn idle_choice(self, t: ThreadId) -> Choice
        ensures { result ≡ spec.idle_choice t self }
    {
        match self {
            Order::Word => Choice::Turn { t, room: true },
            Order::Given(deed) => deed.choice(t),
        }
    }
}
