ghost use Rattle.std.specs.Prelude.{◌≡◌};
ghost use Rattle.flat_model.specs.Step as step_words;

use addr_base::{BoxId, Kind, Line, Pair, ThreadId, Ticket, Verdict};

/// What is chosen to happen next: a turn of a thread, with or without room for a call; the start of
/// a call or an idle look by a server; a ring of a line by a device.
#[derive(Clone, Copy, PartialEq, Eq, Debug)]
pub enum Choice {
    Turn { t: ThreadId, room: bool },
    Start { t: ThreadId, ticket: Ticket },
    Idle { t: ThreadId },
    Ring { line: Line, by: u8 },
}

/// Why an access or a place faults.
#[derive(Clone, Copy, PartialEq, Eq, Debug)]
pub enum Flaw {
    Daccviol,
    Iaccviol,
    Unaligned,
    Place,
}

/// The first `n` entries of the list are frames, the others are 0.
#[derive(Clone, Copy, PartialEq, Eq, Debug)]
pub struct Frames {
    pub n: u8,
    pub list: [u8; 16],
}

/// A call as its server gets it.
#[derive(Clone, Copy, PartialEq, Eq, Debug)]
pub struct Started {
    pub function: u32,
    pub args: [u32; 4],
    pub caller: BoxId,
}

/// What an event answers.
#[derive(Clone, Copy, PartialEq, Eq, Debug)]
pub enum Reply {
    Ended,
    Done,
    Value(u32),
    Status(u8),
    Posted(u32),
    Waiting,
    Irq(Line),
    Given(Frames),
    Fault { why: Flaw, at: u32 },
    Halted,
    Begun(Started),
}

/// An event: what was chosen, and what it answered.
#[derive(Clone, Copy, PartialEq, Eq, Debug)]
pub struct Entry {
    pub choice: Choice,
    pub reply: Reply,
}

/// An event with the target of the call that it posted, if it posted one.
#[derive(Clone, Copy, PartialEq, Eq, Debug)]
pub struct Noted {
    pub entry: Entry,
    pub target: Option<BoxId>,
}

/// A line of the protection unit.
#[derive(Clone, Copy, PartialEq, Eq, Debug)]
pub enum UnitLine {
    Switch(BoxId),
    Rotate {
        slot: u8,
        pair: Pair,
    },
    Flush,
    Access {
        kind: Kind,
        size: u8,
        at: u32,
        verdict: Verdict,
    },
}

/// An item of a log.
#[derive(Clone, Copy, PartialEq, Eq, Debug)]
pub enum Logged {
    Unit(UnitLine),
    Core(Entry),
}

/// What a thread is doing.
#[derive(Clone, Copy, PartialEq, Eq, Debug)]
pub enum Mode {
    Ready,
    Waiting,
    Halted,
    Faulted,
    Spent,
}

/// Who decides the order of events: the script, or threads.
#[derive(Clone, Copy, PartialEq, Eq, Debug)]
pub enum Drive {
    Script,
    Threads,
}

/// What a thread's next event is: a plain turn, a turn that wants room in a box, or the next call.
#[derive(Clone, Copy, PartialEq, Eq, Debug)]
pub enum Want {
    Plain,
    Room(BoxId),
    Next,
}

/// What a caller gets for the number of one of its calls.
#[derive(Clone, Copy, PartialEq, Eq, Debug)]
pub enum Collected {
    Waiting,
    Done(u32),
    NoSuch,
}

impl Reply {
    /// Whether it is a status.
    pub fn is_status(self) -> bool
        ensures { result ≡ step_words.is_status self }
    {
        match self {
            Reply::Status(_) => true,
            Reply::Ended
            | Reply::Done
            | Reply::Value(_)
            | Reply::Posted(_)
            | Reply::Waiting
            | Reply::Irq(_)
            | Reply::Given(_)
            | Reply::Fault { why: _, at: _ }
            | Reply::Halted
            | Reply::Begun(_) => false,
        }
    }
}
