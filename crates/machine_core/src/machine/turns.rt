//! The calls that workers and devices make: what each asks of an inbox or of the line word comes as an argument.
ghost use Rattle.std.specs.Prelude.{◌≡◌, ◌+◌, ◌<◌, true, false, ◌&&◌, is_some, nat_eq, IfErr, IfOk, IfSome, None, Option, length};
ghost use Rattle.addr_base.specs.declared.identity.Ticket.{Ticket};
ghost use Rattle.flat_model.specs.CallRows.{home_of};
ghost use Rattle.flat_model.specs.Legal.{IsLegal};
ghost use Rattle.flat_model.specs.Want.{wants_next};
ghost use Rattle.machine_core.specs.Entries.{HasGrown, Posts};
ghost use Rattle.machine_core.specs.Ready.{IsKnown, IsReady};
ghost use Rattle.machine_core.specs.State.{ended_in};
ghost use Rattle.machine_core.specs.Turns as spec;
ghost use Rattle.machine_core.specs.View.{after_event, world_of};

use super::Machine;
use crate::deeds::Deed;
use atomic_pool::{Claim, Full, Rung, Taken, Vacant};
use flat_model::{BoxId, Choice, Config, Drive, Line, Reply, ThreadId, Ticket, Want};

// Whether neither room nor the next call is wanted.
fn is_plain(want: Want) -> bool
    ensures { result ≡ spec.is_plain want }
{
    match want {
        Want::Plain => true,
        Want::Room(_) | Want::Next => false,
    }
}

// Whether room in the inbox of this box is wanted.
fn is_room_in(want: Want, b: BoxId) -> bool
    ensures { result ≡ spec.is_room_in b.0 want }
{
    match want {
        Want::Room(target) => target.0 == b.0,
        Want::Plain | Want::Next => false,
    }
}

// Whether the next call is wanted by a thread of this box.
fn is_next_of(want: Want, home: BoxId, b: BoxId) -> bool
    ensures { result ≡ (wants_next want && nat_eq home.0 b.0) }
{
    match want {
        Want::Next => home.0 == b.0,
        Want::Plain | Want::Room(_) => false,
    }
}

// Whether both hold.
fn both(one: bool, other: bool) -> bool
    ensures { result ≡ (one && other) }
{
    one && other
}

// The box of a thread.
fn home_of(cfg: &Config, t: ThreadId) -> BoxId
    ensures { result ≡ home_of cfg.now t.0 }
{
    match cfg.program(t) {
        Some(program) => program.home,
        None => BoxId(0),
    }
}

// The ticket of the call that a turn of the thread posted.
fn ticket_of(t: ThreadId, reply: Reply) -> Option<Ticket>
    ensures { result ≡ spec.ticket_of t reply }
{
    match reply {
        Reply::Posted(seq) => Some(Ticket { thread: t, seq }),
        _ => None,
    }
}

impl Machine {
    // What the thread wants. The log of a machine is legal, also where nothing was done.
    fn want(&self, t: ThreadId) -> Want
        ensures exact { result ≡ spec.want_in self.now t }
        ensures legal { IsLegal self.now.config (spec.log_now self.now) }
        ensures same { HasGrown self.now self.now t.0 }
    {
        self.state.wants(&self.config, t)
    }

    // Whether the thread wants neither room nor the next call.
    fn wants_turn(&self, t: ThreadId) -> bool
        requires there { t.0 < length self.now.config.threads }
        requires live { ended_in (world_of self.now) t.0 ≡ false }
        ensures exact { result ≡ spec.takes_turn self.now t }
        ensures ready { result ≡ true → IsReady self.now t (Deed.Turn true) }
        ensures legal { IsLegal self.now.config (spec.log_now self.now) }
        ensures same { HasGrown self.now self.now t.0 }
    {
        is_plain(self.want(t))
    }

    // Whether the thread wants room in the inbox of this box.
    fn wants_room(&self, t: ThreadId, b: BoxId) -> bool
        requires { t.0 < length self.now.config.threads }
        ensures exact { result ≡ spec.takes_claim self.now t b }
        ensures ready { result ≡ true → IsReady self.now t (Deed.Turn true) }
        ensures legal { IsLegal self.now.config (spec.log_now self.now) }
        ensures same { HasGrown self.now self.now t.0 }
    {
        is_room_in(self.want(t), b)
    }

    // Whether the thread wants room in the inbox of this box, and finds it full.
    fn finds_full(&self, t: ThreadId, b: BoxId) -> bool
        requires { t.0 < length self.now.config.threads }
        ensures exact { result ≡ spec.takes_full self.now t b }
        ensures ready { result ≡ true → IsReady self.now t (Deed.Turn false) }
        ensures legal { IsLegal self.now.config (spec.log_now self.now) }
        ensures same { HasGrown self.now self.now t.0 }
    {
        let full = self.state.may_be_full(&self.config, t, b);
        let wants = self.wants_room(t, b);
        both(wants, full)
    }

    // Whether the thread is of this box and wants the next call.
    fn wants_next(&self, t: ThreadId, b: BoxId) -> bool
        requires { t.0 < length self.now.config.threads }
        ensures exact { result ≡ spec.takes_next self.now t b }
        ensures ready { result ≡ true → (ticket : Option Ticket) → IsKnown self.now.config ticket
            → IsReady self.now t (Deed.Serve ticket) }
        ensures legal { IsLegal self.now.config (spec.log_now self.now) }
        ensures same { HasGrown self.now self.now t.0 }
    {
        let want = self.want(t);
        let home = home_of(&self.config, t);
        is_next_of(want, home, b)
    }

    // A turn with room of a thread that wants room in this box: the ticket of the call that it posted.
    fn post(&mut self, t: ThreadId, b: BoxId) -> Ticket
        requires takes { spec.takes_claim self.old t b ≡ true }
        requires ready { IsReady self.old t (Deed.Turn true) }
        ensures event { self.new ≡ after_event self.old (Choice.Turn t true) }
        ensures posts { Posts self.old t b result }
        ensures legal { IsLegal self.new.config (spec.log_now self.new) }
        ensures grown { HasGrown self.old self.new t.0 }
    {
        let reply = self.act(t, Deed::Turn { room: true });
        let answer = ticket_of(t, reply);
        let Some(ticket) = answer else { unreachable!() };
        ticket
    }

    // Whether a box owns the line, and the device has made fewer rings than it may make.
    fn may_ring(&self, line: Line, device: u32) -> bool
        requires drive { self.now.drive ≡ Drive.Threads }
        requires device { device < length self.now.config.devices }
        ensures exact { result ≡ spec.takes_ring self.now line device }
        ensures legal { IsLegal self.now.config (spec.log_now self.now) }
        ensures same { HasGrown self.now self.now (length self.now.config.threads + device) }
    {
        let made = self.rings.at(device as usize);
        let owned = self.state.owns_line(&self.config, line);
        both(owned, made < self.extra)
    }

    // A ring of a line that a box owns, by a device that has made fewer rings than it may make.
    fn record_ring(&mut self, line: Line, device: u32)
        requires drive { self.old.drive ≡ Drive.Threads }
        requires device { device < length self.old.config.devices }
        requires may { spec.takes_ring self.old line device ≡ true }
        ensures event { self.new ≡ after_event self.old (Choice.Ring line device) }
        ensures legal { IsLegal self.new.config (spec.log_now self.new) }
        ensures grown { HasGrown self.old self.new (length self.old.config.threads + device) }
    {
        let made = self.rings.at(device as usize);
        let more = made + 1;
        let by = device as u8;
        self.state.ring(line, by, &mut self.journal);
        self.rings.put(device as usize, more);
    }

    /// A turn of a thread that wants neither room nor the next call. It is refused, with nothing changed, where the
    /// thread wants one of the two.
    pub fn turn(&mut self, t: ThreadId) -> bool
        requires drive { self.old.drive ≡ Drive.Threads }
        requires thread { t.0 < length self.old.config.threads }
        requires live { ended_in (world_of self.old) t.0 ≡ false }

        ensures refused { result ≡ spec.takes_turn self.old t }
        ensures unchanged { result ≡ false → self.new ≡ self.old }
        ensures appended { result ≡ true → self.new ≡ after_event self.old (Choice.Turn t true) }
        ensures legal { IsLegal self.new.config (spec.log_now self.new) }
        ensures grown { HasGrown self.old self.new t.0 }
    {
        if !self.wants_turn(t) {
            return false;
        }
        self.act(t, Deed::Turn { room: true });
        true
    }

    /// A turn with room, for which the caller has claimed a slot: the ticket of the call that it posted. It is refused,
    /// with nothing changed, where the thread doesn't want room in the inbox of the claim.
    pub fn turn_claimed(&mut self, t: ThreadId, claim: &Claim) -> Option<Ticket>
        requires drive { self.old.drive ≡ Drive.Threads }
        requires thread { t.0 < length self.old.config.threads }

        ensures refused { is_some result ≡ spec.takes_claim self.old t claim.now.inbox.of }
        ensures unchanged { result ≡ None → self.new ≡ self.old }
        ensures appended { IfSome result
            (λ _. self.new ≡ after_event self.old (Choice.Turn t true)) }
        ensures posted { IfSome result (λ ticket. Posts self.old t claim.now.inbox.of ticket) }
        ensures legal { IsLegal self.new.config (spec.log_now self.new) }
        ensures grown { HasGrown self.old self.new t.0 }
    {
        if !self.wants_room(t, claim.inbox()) {
            return None;
        }
        Some(self.post(t, claim.inbox()))
    }

    /// A turn without room, for which the caller found the inbox full. It is refused, with nothing changed, where the
    /// thread doesn't want room in that inbox, or where the calls that are posted to its box and the other threads that
    /// may call it are too few to fill it: then the caller found it full too long ago.
    pub fn turn_full(&mut self, t: ThreadId, full: &Full) -> bool
        requires drive { self.old.drive ≡ Drive.Threads }
        requires thread { t.0 < length self.old.config.threads }
        requires held { full.now.held ≡ 0 }

        ensures refused { result ≡ spec.takes_full self.old t full.now.inbox.of }
        ensures unchanged { result ≡ false → self.new ≡ self.old }
        ensures appended { result ≡ true → self.new ≡ after_event self.old (Choice.Turn t false) }
        ensures legal { IsLegal self.new.config (spec.log_now self.new) }
        ensures grown { HasGrown self.old self.new t.0 }
    {
        if !self.finds_full(t, full.inbox()) {
            return false;
        }
        self.act(t, Deed::Turn { room: false });
        true
    }

    /// The start of the call whose ticket the caller took. It is refused, with nothing changed and the ticket given
    /// back, where the thread doesn't want the next call, or the inbox isn't its box's.
    pub fn start(&mut self, t: ThreadId, taken: Taken) -> Result<(), Taken>
        requires drive { self.old.drive ≡ Drive.Threads }
        requires thread { t.0 < length self.old.config.threads }
        requires ticket { taken.ticket.thread.0 < length self.old.config.threads }

        ensures taken { IfOk result (λ _. spec.takes_next self.old t taken.inbox.of ≡ true) }
        ensures refused { IfErr result (λ back. (back ≡ taken)
            × (spec.takes_next self.old t taken.inbox.of ≡ false)) }
        ensures unchanged { IfErr result (λ _. self.new ≡ self.old) }
        ensures appended { IfOk result
            (λ _. self.new ≡ after_event self.old (Choice.Start t taken.ticket)) }
        ensures legal { IsLegal self.new.config (spec.log_now self.new) }
        ensures grown { HasGrown self.old self.new t.0 }
    {
        if !self.wants_next(t, taken.inbox()) {
            return Err(taken);
        }
        let ticket = Some(taken.retire());
        self.act(t, Deed::Serve { ticket });
        Ok(())
    }

    /// An idle look, for which the caller found the inbox vacant. It is refused, with nothing changed, where the thread
    /// doesn't want the next call, or the inbox isn't its box's.
    pub fn idle(&mut self, t: ThreadId, vacant: &Vacant) -> bool
        requires drive { self.old.drive ≡ Drive.Threads }
        requires thread { t.0 < length self.old.config.threads }

        ensures refused { result ≡ spec.takes_next self.old t vacant.now.inbox.of }
        ensures unchanged { result ≡ false → self.new ≡ self.old }
        ensures appended { result ≡ true → self.new ≡ after_event self.old (Choice.Idle t) }
        ensures legal { IsLegal self.new.config (spec.log_now self.new) }
        ensures grown { HasGrown self.old self.new t.0 }
    {
        if !self.wants_next(t, vacant.inbox()) {
            return false;
        }
        self.act(t, Deed::Serve { ticket: None });
        true
    }

    /// A ring of the line that the caller took. It is refused, with nothing changed and the line given back, where no
    /// box owns the line, or the log has as many rings of that number as each device may make.
    pub fn ring(&mut self, rung: Rung) -> Result<(), Rung>
        requires drive { self.old.drive ≡ Drive.Threads }
        requires device { rung.number < length self.old.config.devices }

        ensures taken { IfOk result (λ _. spec.takes_ring self.old rung.line rung.number ≡ true) }
        ensures refused { IfErr result (λ back. (back ≡ rung)
            × (spec.takes_ring self.old rung.line rung.number ≡ false)) }
        ensures unchanged { IfErr result (λ _. self.new ≡ self.old) }
        ensures appended { IfOk result
            (λ _. self.new ≡ after_event self.old (Choice.Ring rung.line rung.number)) }
        ensures legal { IsLegal self.new.config (spec.log_now self.new) }
        ensures grown { HasGrown self.old self.new
            (length self.old.config.threads + rung.number) }
    {
        if !self.may_ring(rung.line(), rung.number()) {
            return Err(rung);
        }
        self.record_ring(rung.line(), rung.number());
        Ok(())
    }
}
