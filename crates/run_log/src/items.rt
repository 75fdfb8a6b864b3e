ghost use Rattle.std.specs.Prelude.{◌≡◌, true, ◌+◌, ◌-◌, ◌*◌, ◌≤◌, [], ◌∷◌, ◌++◌, length, map, take};
ghost use Rattle.std.specs.Fmt.{decimal};
ghost use Rattle.std.specs.List.{AllByRecursion};
ghost use Rattle.addr_base.specs.declared.identity.ThreadId.{ThreadId};
ghost use Rattle.flat_model.specs.Log.{is_named_choice, is_named_item};
ghost use Rattle.flat_model.specs.Sound.{IsSound};
ghost use Rattle.flat_model.specs.CallRows.{home_of};
ghost use Rattle.flat_model.specs.Text.{box_name, end_line, entry_words, first_thread, flaw_text, hex_word, item_line, kind_text, line_of, mode_text, reply_words, thread_text, ticket_text, unit_words, verdict_words};
ghost use Rattle.run_log.specs.Spaced.{spaced};
ghost use Rattle.run_log.specs.Typed.{Fits8, Fits32, IsTypedChoice, IsTypedEnd, IsTypedFrames, IsTypedItem, IsTypedLine, IsTypedReply, IsTypedStarted};

use crate::page::Page;
use flat_model::{
    BoxId, Choice, Config, End, Entry, Flaw, Frames, Kind, Logged, Mode, Reply, Started, ThreadId,
    Ticket, UnitLine, Verdict,
};

/// The box of a thread, or box 0 where there is no such thread.
pub fn home_of(config: &Config, t: ThreadId) -> BoxId
    ensures { result ≡ home_of config.now t.0 }
{
    match config.program(t) {
        Some(thread) => thread.home,
        None => BoxId(0),
    }
}

// The name of a box, or nothing where there is no such box.
fn box_name(config: &Config, b: BoxId) -> &[u8]
    ensures { result.now ≡ box_name config.now b.0 }
{
    match config.part(b) {
        Some(part) => part.name.as_str().as_bytes(),
        None => &[],
    }
}

/// Prints the name of a box.
#[tactic(auto, using(crate::proofs::NameLemmas::box_name_short))]
pub fn push_name(config: &Config, b: BoxId, page: &mut Page)
    requires sound { IsSound config.now }
    requires room { length page.old + 16 ≤ 4096 }
    ensures text { page.new ≡ page.old ++ box_name config.now b.0 }
    ensures long { length page.new ≤ length page.old + 16 }
{
    page.push_bytes(box_name(config, b));
}

/// The number of a box's first thread, or 0 where there is no such box.
pub fn first_thread(config: &Config, b: BoxId) -> u32
    ensures { result ≡ first_thread config.now b.0 }
{
    match config.part(b) {
        Some(part) => part.first,
        None => 0,
    }
}

/// Prints a thread: the name of its box, a dot, and its index in the box.
#[tactic(auto, unfolding(flat_model::specs::Text::thread_text))]
pub fn push_thread(config: &Config, t: ThreadId, page: &mut Page)
    requires sound { IsSound config.now }
    requires room { length page.old + 27 ≤ 4096 }
    ensures text { page.new ≡ page.old ++ thread_text config.now t }
    ensures long { length page.new ≤ length page.old + 27 }
{
    let home = home_of(config, t);
    push_name(config, home, page);
    page.push_byte(b'.');
    page.push_decimal(u32::from(t.0).saturating_sub(first_thread(config, home)));
}

// Prints a ticket: its thread, a `#`, and its number.
fn push_ticket(config: &Config, ticket: Ticket, page: &mut Page)
    requires sound { IsSound config.now }
    requires room { length page.old + 38 ≤ 4096 }
    ensures text { page.new ≡ page.old ++ ticket_text config.now ticket }
    ensures long { length page.new ≤ length page.old + 38 }
    ensures typed { Fits32 ticket.seq }
{
    push_thread(config, ticket.thread, page);
    page.push_byte(b'#');
    page.push_decimal(ticket.seq);
}

// Prints the kind of an access between two spaces.
fn push_kind(kind: Kind, page: &mut Page)
    requires { length page.old + 7 ≤ 4096 }
    ensures text { page.new ≡ page.old ++ 32 ∷ (kind_text kind ++ 32 ∷ []) }
    ensures long { length page.new ≤ length page.old + 7 }
{
    match kind {
        Kind::Read => page.push_word(b" read "),
        Kind::Write => page.push_word(b" write "),
        Kind::Fetch => page.push_word(b" fetch "),
    }
}

/// The word of a cause of a fault.
pub fn flaw_text(flaw: Flaw) -> &'static str
    ensures text { result.now ≡ flaw_text flaw }
    ensures short { length result.now ≤ 9 }
{
    match flaw {
        Flaw::Daccviol => "daccviol",
        Flaw::Iaccviol => "iaccviol",
        Flaw::Unaligned => "unaligned",
        Flaw::Place => "place",
    }
}

/// The word of the state of a thread.
pub fn mode_text(mode: Mode) -> &'static str
    ensures text { result.now ≡ mode_text mode }
    ensures short { length result.now ≤ 7 }
{
    match mode {
        Mode::Ready => "ready",
        Mode::Waiting => "waiting",
        Mode::Halted => "halted",
        Mode::Faulted => "faulted",
        Mode::Spent => "spent",
    }
}

// Prints what the unit decided of an access.
fn push_verdict(verdict: Verdict, page: &mut Page)
    requires { length page.old + 16 ≤ 4096 }
    ensures text { page.new ≡ page.old ++ spaced (verdict_words verdict) }
    ensures long { length page.new ≤ length page.old + 16 }
{
    match verdict {
        Verdict::Granted(slot) => {
            page.push_word(b" slot ");
            page.push_decimal(u32::from(slot));
        }
        Verdict::Denied => page.push_word(b" denied"),
    }
}

// Prints an access and what the unit decided of it.
fn push_access(kind: Kind, size: u8, at: u32, verdict: Verdict, page: &mut Page)
    requires { length page.old + 56 ≤ 4096 }
    ensures text { page.new ≡ page.old
        ++ spaced (kind_text kind ∷ decimal size ∷ hex_word at ∷ verdict_words verdict) }
    ensures long { length page.new ≤ length page.old + 56 }
{
    push_kind(kind, page);
    page.push_decimal(u32::from(size));
    page.push_byte(b' ');
    page.push_hex(at);
    push_verdict(verdict, page);
}

// Prints numbers in hexadecimal, each with a space before it.
fn push_hex_words(numbers: &[u32], page: &mut Page)
    requires { length page.old + 11 * length numbers.now ≤ 4096 }
    ensures text { page.new ≡ page.old ++ spaced (map hex_word numbers.now) }
    ensures long { length page.new ≡ length page.old + 11 * length numbers.now }
    ensures typed { AllByRecursion Fits32 numbers.now }
{
    for n in numbers {
        page.push_byte(b' ');
        page.push_hex(*n);
    }
}

// Prints the numbers of frames, each with a space before it.
fn push_frames(numbers: &[u8], page: &mut Page)
    requires { length page.old + 11 * length numbers.now ≤ 4096 }
    ensures text { page.new ≡ page.old ++ spaced (map decimal numbers.now) }
    ensures long { length page.new ≤ length page.old + 11 * length numbers.now }
{
    for n in numbers {
        page.push_byte(b' ');
        page.push_decimal(u32::from(*n));
    }
}

// Prints the first so many of the frames.
fn push_first_frames(list: &[u8], n: u8, page: &mut Page)
    requires few { length list.now ≤ 16 }
    requires room { length page.old + 176 ≤ 4096 }
    ensures text { page.new ≡ page.old ++ spaced (map decimal (take n list.now)) }
    ensures long { length page.new ≤ length page.old + 176 }
    ensures typed { AllByRecursion Fits8 list.now }
{
    let n = usize::from(n).min(list.len());
    push_frames(&list[..n], page);
}

// Prints the frames that a box was given.
fn push_given(frames: &Frames, page: &mut Page)
    requires { length page.old + 183 ≤ 4096 }
    ensures text { page.new ≡ page.old ++ spaced (reply_words (Reply.Given frames.now)) }
    ensures long { length page.new ≤ length page.old + 183 }
    ensures typed { IsTypedFrames frames.now }
{
    page.push_word(b" frames");
    push_first_frames(&frames.list, frames.n, page);
}

// Prints the reply to a start that was made: `ok`, the function and its arguments.
fn push_started(started: &Started, page: &mut Page)
    requires { length page.old + 58 ≤ 4096 }
    ensures text { page.new ≡ page.old ++ spaced (reply_words (Reply.Begun started.now)) }
    ensures long { length page.new ≤ length page.old + 58 }
    ensures typed { IsTypedStarted started.now }
{
    page.push_word(b" ok ");
    page.push_hex(started.function);
    push_hex_words(&started.args, page);
}

// Prints a reply of any kind.
fn push_any_reply(reply: &Reply, page: &mut Page)
    requires { length page.old + 183 ≤ 4096 }
    ensures text { page.new ≡ page.old ++ spaced (reply_words reply.now) }
    ensures long { length page.new ≤ length page.old + 183 }
    ensures typed { IsTypedReply reply.now }
{
    match reply {
        Reply::Ended => page.push_word(b" ended"),
        Reply::Done => page.push_word(b" ok"),
        Reply::Value(value) => {
            page.push_word(b" ok ");
            page.push_hex(*value);
        }
        Reply::Status(status) => {
            page.push_word(b" status ");
            page.push_decimal(u32::from(*status));
        }
        Reply::Posted(seq) => {
            page.push_word(b" posted ");
            page.push_decimal(*seq);
        }
        Reply::Waiting => page.push_word(b" waiting"),
        Reply::Irq(line) => {
            page.push_word(b" irq ");
            page.push_decimal(u32::from(line.0));
        }
        Reply::Given(frames) => push_given(frames, page),
        Reply::Fault { why, at } => {
            page.push_word(b" fault ");
            page.push_bytes(flaw_text(*why).as_bytes());
            page.push_byte(b' ');
            page.push_hex(*at);
        }
        Reply::Halted => page.push_word(b" halted"),
        Reply::Begun(started) => push_started(started, page),
    }
}

// Prints a reply.
fn push_reply(reply: &Reply, page: &mut Page)
    requires { length page.old + 183 ≤ 4096 }
    ensures text { page.new ≡ page.old ++ spaced (reply_words reply.now) }
    ensures long { length page.new ≤ length page.old + 183 }
    ensures typed { IsTypedReply reply.now }
{
    // Most replies of a log are this one, and its few bytes need no call.
    match reply {
        Reply::Done => page.push_word(b" ok"),
        _ => push_any_reply(reply, page),
    }
}

// Prints a unit's line without its end.
fn push_unit(config: &Config, line: &UnitLine, page: &mut Page)
    requires sound { IsSound config.now }
    requires room { length page.old + 68 ≤ 4096 }
    ensures text { page.new ++ 10 ∷ [] ≡ page.old ++ line_of (unit_words config.now line.now) }
    ensures long { length page.new ≤ length page.old + 68 }
    ensures typed { IsTypedLine line.now }
{
    match line {
        UnitLine::Switch(b) => {
            page.push_word(b"unit switch ");
            push_name(config, *b, page);
        }
        UnitLine::Rotate { slot, pair } => {
            page.push_word(b"unit rotate ");
            page.push_decimal(u32::from(*slot));
            page.push_byte(b' ');
            page.push_hex(pair.rbar);
            page.push_byte(b' ');
            page.push_hex(pair.rasr);
        }
        UnitLine::Flush => page.push_word(b"unit flush"),
        UnitLine::Access {
            kind,
            size,
            at,
            verdict,
        } => {
            page.push_word(b"unit access");
            push_access(*kind, *size, *at, *verdict, page);
        }
    }
}

// Prints an event and its reply without the end of the line.
fn push_entry(config: &Config, entry: &Entry, page: &mut Page)
    requires sound { IsSound config.now }
    requires room { length page.old + 255 ≤ 4096 }
    ensures text { page.new ++ 10 ∷ []
        ≡ page.old ++ line_of (entry_words config.now entry.now.choice entry.now.reply) }
    ensures long { length page.new ≤ length page.old + 255 }
    ensures choice { IsTypedChoice entry.now.choice }
    ensures reply { is_named_choice config.now entry.now.choice entry.now.reply ≡ true
        → IsTypedReply entry.now.reply }
{
    match entry.choice {
        Choice::Turn { t, room: _ } => {
            page.push_word(b"turn ");
            push_thread(config, t, page);
            push_reply(&entry.reply, page);
        }
        Choice::Start { t, ticket } => {
            page.push_word(b"start ");
            push_thread(config, t, page);
            page.push_byte(b' ');
            push_ticket(config, ticket, page);
            push_any_reply(&entry.reply, page);
        }
        Choice::Idle { t } => {
            page.push_word(b"idle ");
            push_thread(config, t, page);
            push_any_reply(&entry.reply, page);
        }
        Choice::Ring { line, by } => {
            page.push_word(b"ring ");
            page.push_decimal(u32::from(line.0));
            page.push_word(b" by ");
            page.push_decimal(u32::from(by));
        }
    }
}

/// Prints the line of an item without its line feed.
#[tactic(auto, unfolding(flat_model::specs::Text::item_line))]
pub fn push_item_words(config: &Config, item: &Logged, page: &mut Page)
    requires sound { IsSound config.now }
    requires room { length page.old + 255 ≤ 4096 }
    ensures text { page.new ++ 10 ∷ [] ≡ page.old ++ item_line config.now item.now }
    ensures long { length page.new ≤ length page.old + 255 }
    ensures typed { is_named_item config.now item.now ≡ true → IsTypedItem item.now }
{
    match item {
        Logged::Unit(line) => push_unit(config, line, page),
        Logged::Core(entry) => push_entry(config, entry, page),
    }
}

/// Prints the line of an item.
pub fn push_item(config: &Config, item: &Logged, page: &mut Page)
    requires sound { IsSound config.now }
    requires room { length page.old + 256 ≤ 4096 }
    ensures text { page.new ≡ page.old ++ item_line config.now item.now }
    ensures typed { is_named_item config.now item.now ≡ true → IsTypedItem item.now }
{
    push_item_words(config, item, page);
    page.end_line();
}

/// Prints the line of what a thread is at the end without its line feed.
#[tactic(auto, unfolding(flat_model::specs::Text::end_line))]
pub fn push_end_words(config: &Config, t: ThreadId, end: &End, page: &mut Page)
    requires sound { IsSound config.now }
    requires room { length page.old + 255 ≤ 4096 }
    ensures text { page.new ++ 10 ∷ [] ≡ page.old ++ end_line config.now t.0 end.now }
    ensures long { length page.new ≤ length page.old + 255 }
    ensures typed { IsTypedEnd end.now }
{
    page.push_word(b"thread ");
    push_thread(config, t, page);
    page.push_byte(b' ');
    page.push_bytes(mode_text(end.mode).as_bytes());
    page.push_byte(b' ');
    page.push_decimal(end.steps);
    push_hex_words(&end.regs, page);
}

/// Prints the line of what a thread is at the end.
pub fn push_end(config: &Config, t: ThreadId, end: &End, page: &mut Page)
    requires sound { IsSound config.now }
    requires room { length page.old + 256 ≤ 4096 }
    ensures text { page.new ≡ page.old ++ end_line config.now t.0 end.now }
    ensures typed { IsTypedEnd end.now }
{
    push_end_words(config, t, end, page);
    page.end_line();
}
