//! What one word of a line means: a box, a thread, a ticket, a kind of access, a cause of a fault, a mode.
ghost use Rattle.std.specs.Prelude.{◌≡◌};
ghost use Rattle.run_log.specs.LineWords.{first_of, rest_of};
ghost use Rattle.run_log.specs.Meanings.{box_of, flaw_of, kind_of, mode_of, thread_of, ticket_of};

use crate::items::{first_thread, flaw_text, mode_text};
use crate::words::{Words, is_text, number_of, parted_at_dot, parted_at_hash};
use flat_model::{BoxId, Config, Flaw, Kind, Mode, ThreadId, Ticket};

// The causes of a fault that are not the last one.
const FLAWS: [Flaw; 3] = [Flaw::Daccviol, Flaw::Iaccviol, Flaw::Unaligned];

// The modes that are not the last one.
const MODES: [Mode; 4] = [Mode::Ready, Mode::Waiting, Mode::Halted, Mode::Faulted];

// The box with this name; a number past the last one where there is none.
#[tactic(auto, unfolding(crate::specs::Meanings::box_of))]
fn box_of(config: &Config, name: &[u8]) -> BoxId
    ensures { result ≡ box_of config.now name.now }
{
    let mut number: u8 = 0;
    for part in config.boxes.as_slice() {
        if part.name.as_str().as_bytes() == name {
            return BoxId(number);
        }
        number = number.saturating_add(1);
    }
    BoxId(number)
}

// The thread that a word names by its box, a dot and its index.
#[tactic(auto, unfolding(crate::specs::Meanings::thread_of))]
fn thread_of(config: &Config, word: &[u8]) -> ThreadId
    ensures { result ≡ thread_of config.now word.now }
{
    let (name, index) = parted_at_dot(word);
    let first = first_thread(config, box_of(config, name));
    ThreadId(first.saturating_add(number_of(10, index)).min(255) as u8)
}

// The ticket that a word names by its thread, a `#` and its number.
#[tactic(auto, unfolding(crate::specs::Meanings::ticket_of))]
fn ticket_of(config: &Config, word: &[u8]) -> Ticket
    ensures { result ≡ ticket_of config.now word.now }
{
    let (thread, seq) = parted_at_hash(word);
    Ticket {
        thread: thread_of(config, thread),
        seq: number_of(10, seq),
    }
}

// The kind of access that a word names.
#[tactic(auto, unfolding(crate::specs::Meanings::kind_of))]
fn kind_of(word: &[u8]) -> Kind
    ensures { result ≡ kind_of word.now }
{
    if is_text(word, "read") {
        Kind::Read
    } else if is_text(word, "write") {
        Kind::Write
    } else {
        Kind::Fetch
    }
}

// The cause of a fault that a word names, as it is printed.
#[tactic(auto, unfolding(crate::specs::Meanings::flaw_of))]
fn flaw_of(word: &[u8]) -> Flaw
    ensures { result ≡ flaw_of word.now }
{
    FLAWS
        .iter()
        .copied()
        .find(|flaw| is_text(word, flaw_text(*flaw)))
        .unwrap_or(Flaw::Place)
}

// The mode that a word names, as it is printed.
#[tactic(auto, unfolding(crate::specs::Meanings::mode_of))]
fn mode_of(word: &[u8]) -> Mode
    ensures { result ≡ mode_of word.now }
{
    MODES
        .iter()
        .copied()
        .find(|mode| is_text(word, mode_text(*mode)))
        .unwrap_or(Mode::Spent)
}

impl<'a> Words<'a> {
    /// Takes the name of a box.
    pub fn box_id(&mut self, config: &Config) -> BoxId
        ensures value { result ≡ box_of config.now (first_of self.old) }
        ensures rest { self.new ≡ rest_of self.old }
    {
        box_of(config, self.next_word())
    }

    /// Takes the name of a thread.
    pub fn thread(&mut self, config: &Config) -> ThreadId
        ensures value { result ≡ thread_of config.now (first_of self.old) }
        ensures rest { self.new ≡ rest_of self.old }
    {
        thread_of(config, self.next_word())
    }

    /// Takes a ticket.
    pub fn ticket(&mut self, config: &Config) -> Ticket
        ensures value { result ≡ ticket_of config.now (first_of self.old) }
        ensures rest { self.new ≡ rest_of self.old }
    {
        ticket_of(config, self.next_word())
    }

    /// Takes a kind of access.
    pub fn kind(&mut self) -> Kind
        ensures value { result ≡ kind_of (first_of self.old) }
        ensures rest { self.new ≡ rest_of self.old }
    {
        kind_of(self.next_word())
    }

    /// Takes a cause of a fault.
    pub fn flaw(&mut self) -> Flaw
        ensures value { result ≡ flaw_of (first_of self.old) }
        ensures rest { self.new ≡ rest_of self.old }
    {
        flaw_of(self.next_word())
    }

    /// Takes a mode.
    pub fn mode(&mut self) -> Mode
        ensures value { result ≡ mode_of (first_of self.old) }
        ensures rest { self.new ≡ rest_of self.old }
    {
        mode_of(self.next_word())
    }
}
