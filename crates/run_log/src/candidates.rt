//! The one item or end that a line can be the text of: its words are taken from the left, each for what it is.
ghost use Rattle.std.specs.Prelude.{◌≡◌};
ghost use Rattle.run_log.specs.Candidates.{access_of, done_of, end_of, fault_of, frames_of, had_room, idle_of, item_of, reply_of, ring_of, rotate_of, start_of, start_reply_of, started_of, state_of, turn_of, unit_of, verdict_of};
ghost use Rattle.run_log.specs.LineWords.{words_of};

use crate::items::home_of;
use crate::words::{Words, is_text};
use flat_model::{
    Choice, Config, End, Entry, Frames, Line, Logged, Pair, Reply, Started, Ticket, UnitLine,
    Verdict,
};

// Whether a turn with this reply had room for its call: status 3 is the answer where there is none.
#[tactic(auto, unfolding(crate::specs::Candidates::had_room))]
fn had_room(reply: &Reply) -> bool
    ensures { result ≡ had_room reply.now }
{
    match reply {
        Reply::Status(status) => *status != 3,
        _ => true,
    }
}

impl<'a> Words<'a> {
    // Takes what the unit decided.
    #[tactic(auto, unfolding(crate::specs::Candidates::verdict_of))]
    fn verdict(&mut self) -> Verdict
        ensures { result ≡ verdict_of self.old }
    {
        if is_text(self.next_word(), "slot") {
            Verdict::Granted(self.small())
        } else {
            Verdict::Denied
        }
    }

    // Takes a slot and the pair that was written to it.
    #[tactic(auto, unfolding(crate::specs::Candidates::rotate_of))]
    fn rotation(&mut self) -> UnitLine
        ensures { result ≡ rotate_of self.old }
    {
        UnitLine::Rotate {
            slot: self.small(),
            pair: Pair {
                rbar: self.hex(),
                rasr: self.hex(),
            },
        }
    }

    // Takes an access and its verdict.
    #[tactic(auto, unfolding(crate::specs::Candidates::access_of))]
    fn access(&mut self) -> UnitLine
        ensures { result ≡ access_of self.old }
    {
        UnitLine::Access {
            kind: self.kind(),
            size: self.small(),
            at: self.hex(),
            verdict: self.verdict(),
        }
    }

    // Takes the unit's line behind `unit`.
    #[tactic(auto, unfolding(crate::specs::Candidates::unit_of))]
    fn unit_line(&mut self, config: &Config) -> UnitLine
        ensures { result ≡ unit_of config.now self.old }
    {
        let word = self.next_word();
        if is_text(word, "switch") {
            UnitLine::Switch(self.box_id(config))
        } else if is_text(word, "rotate") {
            self.rotation()
        } else if is_text(word, "access") {
            self.access()
        } else {
            UnitLine::Flush
        }
    }

    // Takes the numbers of frames, of which 16 are kept.
    #[tactic(auto, unfolding(crate::specs::Candidates::frames_of))]
    fn frames(&mut self) -> Frames
        ensures { result ≡ frames_of self.old }
    {
        Frames {
            n: self.count().min(16) as u8,
            list: [
                self.small(),
                self.small(),
                self.small(),
                self.small(),
                self.small(),
                self.small(),
                self.small(),
                self.small(),
                self.small(),
                self.small(),
                self.small(),
                self.small(),
                self.small(),
                self.small(),
                self.small(),
                self.small(),
            ],
        }
    }

    // Takes the function and the arguments of a call that was started.
    #[tactic(auto, unfolding(crate::specs::Candidates::started_of))]
    fn started(&mut self, config: &Config, ticket: Ticket) -> Started
        ensures { result ≡ started_of config.now ticket self.old }
    {
        Started {
            function: self.hex(),
            args: [self.hex(), self.hex(), self.hex(), self.hex()],
            caller: home_of(config, ticket.thread),
        }
    }

    // Takes the value behind `ok`, if there is one.
    #[tactic(auto, unfolding(crate::specs::Candidates::done_of))]
    fn done(&mut self) -> Reply
        ensures { result ≡ done_of self.old }
    {
        if self.count() == 0 {
            Reply::Done
        } else {
            Reply::Value(self.hex())
        }
    }

    // Takes the cause and the place of a fault.
    #[tactic(auto, unfolding(crate::specs::Candidates::fault_of))]
    fn fault(&mut self) -> Reply
        ensures { result ≡ fault_of self.old }
    {
        Reply::Fault {
            why: self.flaw(),
            at: self.hex(),
        }
    }

    // Takes the reply of a turn.
    #[tactic(auto, unfolding(crate::specs::Candidates::reply_of))]
    fn reply(&mut self) -> Reply
        ensures { result ≡ reply_of self.old }
    {
        let word = self.next_word();
        if is_text(word, "ok") {
            self.done()
        } else if is_text(word, "status") {
            Reply::Status(self.small())
        } else if is_text(word, "posted") {
            Reply::Posted(self.decimal())
        } else if is_text(word, "waiting") {
            Reply::Waiting
        } else if is_text(word, "irq") {
            Reply::Irq(Line(self.small()))
        } else if is_text(word, "frames") {
            Reply::Given(self.frames())
        } else if is_text(word, "fault") {
            self.fault()
        } else if is_text(word, "halted") {
            Reply::Halted
        } else {
            Reply::Ended
        }
    }

    // Takes the reply of a start.
    #[tactic(auto, unfolding(crate::specs::Candidates::start_reply_of))]
    fn start_reply(&mut self, config: &Config, ticket: Ticket) -> Reply
        ensures { result ≡ start_reply_of config.now ticket self.old }
    {
        if is_text(self.next_word(), "ok") {
            Reply::Begun(self.started(config, ticket))
        } else {
            Reply::Status(12)
        }
    }

    // Takes the turn behind `turn`.
    #[tactic(auto, unfolding(crate::specs::Candidates::turn_of))]
    fn turn(&mut self, config: &Config) -> Logged
        ensures { result ≡ turn_of config.now self.old }
    {
        let t = self.thread(config);
        let reply = self.reply();
        let room = had_room(&reply);
        Logged::Core(Entry {
            choice: Choice::Turn { t, room },
            reply,
        })
    }

    // Takes the start of a call behind `start`.
    #[tactic(auto, unfolding(crate::specs::Candidates::start_of))]
    fn start(&mut self, config: &Config) -> Logged
        ensures { result ≡ start_of config.now self.old }
    {
        let t = self.thread(config);
        let ticket = self.ticket(config);
        Logged::Core(Entry {
            choice: Choice::Start { t, ticket },
            reply: self.start_reply(config, ticket),
        })
    }

    // Takes the idle look behind `idle`. Its reply is the one that an idle look has.
    #[tactic(auto, unfolding(crate::specs::Candidates::idle_of))]
    fn idle(&mut self, config: &Config) -> Logged
        ensures { result ≡ idle_of config.now self.old }
    {
        Logged::Core(Entry {
            choice: Choice::Idle {
                t: self.thread(config),
            },
            reply: Reply::Status(2),
        })
    }

    // Takes the ring behind `ring`: a line, `by`, and a device.
    #[tactic(auto, unfolding(crate::specs::Candidates::ring_of))]
    fn ring(&mut self) -> Logged
        ensures { result ≡ ring_of self.old }
    {
        let line = Line(self.small());
        self.next_word();
        Logged::Core(Entry {
            choice: Choice::Ring {
                line,
                by: self.small(),
            },
            reply: Reply::Done,
        })
    }

    // Takes the state of a thread: its mode, its steps and its registers.
    #[tactic(auto, unfolding(crate::specs::Candidates::state_of))]
    fn state(&mut self) -> End
        ensures { result ≡ state_of self.old }
    {
        End {
            mode: self.mode(),
            steps: self.decimal(),
            regs: [
                self.hex(),
                self.hex(),
                self.hex(),
                self.hex(),
                self.hex(),
                self.hex(),
                self.hex(),
                self.hex(),
            ],
        }
    }
}

/// The one item that a line can be the text of.
#[tactic(auto, unfolding(crate::specs::Candidates::item_of))]
pub fn item_of(config: &Config, line: &[u8]) -> Logged
    ensures { result ≡ item_of config.now (words_of line.now) }
{
    let mut words = Words::of(line);
    let word = words.next_word();
    if is_text(word, "unit") {
        Logged::Unit(words.unit_line(config))
    } else if is_text(word, "turn") {
        words.turn(config)
    } else if is_text(word, "start") {
        words.start(config)
    } else if is_text(word, "idle") {
        words.idle(config)
    } else {
        words.ring()
    }
}

/// The one end that a line can be the text of.
#[tactic(auto, unfolding(crate::specs::Candidates::end_of))]
pub fn end_of(line: &[u8]) -> End
    ensures { result ≡ end_of (words_of line.now) }
{
    let mut words = Words::of(line);
    // `thread` and its name, which the line is compared for later.
    words.next_word();
    words.next_word();
    words.state()
}
