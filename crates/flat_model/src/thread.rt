ghost use Rattle.std.specs.Prelude.{◌≡◌, ◌+◌, ◌^◌, ◌<◌, None, Some, take};
ghost use Rattle.flat_model.specs.declared.events.Reply.TheVariants as reply;
ghost use Rattle.flat_model.specs.Thread as spec;
ghost use Rattle.flat_model.specs.ThreadEvents as events;

use crate::events::{Flaw, Mode, Reply, Started};
use crate::states::{Awaited, Context, ThreadState};

impl Mode {
    /// Whether the thread waits for a call.
    pub fn is_waiting(self) -> bool
        ensures { result ≡ spec.is_waiting self }
    {
        match self {
            Mode::Waiting => true,
            Mode::Ready | Mode::Halted | Mode::Faulted | Mode::Spent => false,
        }
    }

    // Whether the thread stopped by itself.
    fn is_stopped(self) -> bool
        ensures { result ≡ spec.is_stopped self }
    {
        match self {
            Mode::Halted | Mode::Faulted => true,
            Mode::Ready | Mode::Waiting | Mode::Spent => false,
        }
    }
}

impl ThreadState {
    /// A thread as it is at the start.
    pub fn opening() -> ThreadState
        ensures { result ≡ events.opening_thread }
    {
        ThreadState {
            pc: 0,
            regs: [0; 8],
            mode: Mode::Ready,
            steps: 0,
            count: 0,
            awaited: None,
        }
    }

    /// Whether the thread may run no more.
    pub fn has_ended(&self) -> bool
        ensures { result ≡ spec.has_ended self.now }
    {
        match self.mode {
            Mode::Ready | Mode::Waiting => false,
            Mode::Halted | Mode::Faulted | Mode::Spent => true,
        }
    }

    /// What a register holds.
    pub fn register(&self, r: u8) -> u32
        ensures { result ≡ spec.register self.now r }
    {
        self.regs.get(r as usize).copied().unwrap_or(0)
    }

    /// Puts a value into a register.
    #[tactic(auto, using(std::proofs::lemmas::List::set_past))]
    pub fn set_register(&mut self, r: u8, value: u32)
        ensures { self.new ≡ spec.with_register self.old r value }
    {
        if r < 8 {
            self.regs[r as usize] = value;
        }
    }

    /// Moves the thread to its next place.
    pub fn move_on(&mut self)
        ensures { self.new ≡ spec.moved self.old }
    {
        self.pc = self.pc.wrapping_add(1);
    }

    /// Counts one step.
    pub fn count_step(&mut self)
        requires { self.old.steps + 1 < 2 ^ 32 }
        ensures { self.new ≡ spec.counted self.old }
    {
        self.steps += 1;
    }

    /// Spends the thread where its steps are at its budget and it did not stop by itself.
    pub fn bound(&mut self, budget: u32)
        ensures { self.new ≡ spec.bounded budget self.old }
    {
        if !self.mode.is_stopped() && self.steps >= budget {
            self.mode = Mode::Spent;
        }
    }

    /// Puts a result into a register, then says in r7 that it is there, and moves on.
    pub fn give_result(&mut self, r: u8, value: u32)
        ensures { self.new ≡ spec.with_result self.old r value }
    {
        self.set_register(r, value);
        self.set_register(7, 0);
        self.move_on();
    }

    /// Puts the status of a kernel call into r7, and moves on.
    pub fn give_status(&mut self, status: u8)
        ensures { self.new ≡ spec.with_status self.old status }
    {
        self.set_register(7, status as u32);
        self.move_on();
    }

    /// Stops the thread with a fault: no register changes.
    pub fn fault(&mut self, why: Flaw, at: u32) -> Reply
        ensures thread { self.new ≡ spec.faulted self.old }
        ensures reply { result ≡ reply.Fault why at }
    {
        self.mode = Mode::Faulted;
        Reply::Fault { why, at }
    }

    /// Gives the thread the result of the call that it waited for.
    pub fn wake(&mut self, value: u32)
        ensures { self.new ≡ events.woken self.old value }
    {
        self.give_result(0, value);
        self.mode = Mode::Ready;
        self.awaited = None;
    }

    /// Ends the wait for the call of this number after the last look.
    pub fn time_out(&mut self, seq: u32)
        ensures { self.new ≡ events.timed_out self.old seq }
    {
        self.set_register(0, seq);
        self.give_status(1);
        self.mode = Mode::Ready;
        self.awaited = None;
    }

    /// Leaves so many looks for the call of this number.
    pub fn look_on(&mut self, seq: u32, looks: u32)
        ensures { self.new ≡ events.looking self.old seq looks }
    {
        self.awaited = Some(Awaited { seq, looks });
    }

    /// What a delivery saves.
    pub fn context(&self) -> Context
        ensures { result ≡ events.context_of self.now }
    {
        Context {
            pc: self.pc,
            regs: self.regs,
        }
    }

    /// Puts the thread to its handler, with the line in r0.
    pub fn interrupt(&mut self, line: u8, handler: u32)
        ensures { self.new ≡ events.interrupted self.old line handler }
    {
        self.set_register(0, line as u32);
        self.pc = handler;
    }

    /// Puts the thread back to where it was when a line was delivered.
    pub fn resume(&mut self, context: Context)
        ensures { self.new ≡ events.resumed self.old context }
    {
        let regs = context.regs;
        self.pc = context.pc;
        self.regs = regs;
    }

    /// Answers a kernel call that was done.
    pub fn finish_call(&mut self) -> Reply
        ensures thread { self.new ≡ spec.with_status self.old 0 }
        ensures reply { result ≡ reply.Done }
    {
        self.give_status(0);
        Reply::Done
    }

    /// Answers a kernel call with a status.
    pub fn refuse_call(&mut self, status: u8) -> Reply
        ensures thread { self.new ≡ spec.with_status self.old status }
        ensures reply { result ≡ reply.Status status }
    {
        self.give_status(status);
        Reply::Status(status)
    }

    /// Answers a kernel call with a value.
    pub fn answer_call(&mut self, r: u8, value: u32) -> Reply
        ensures thread { self.new ≡ spec.with_result self.old r value }
        ensures reply { result ≡ reply.Value value }
    {
        self.give_result(r, value);
        Reply::Value(value)
    }

    /// The four words that a call of the thread hands on.
    pub fn arguments(&self) -> [u32; 4]
        ensures { result ≡ take 4 self.now.regs }
    {
        [self.regs[0], self.regs[1], self.regs[2], self.regs[3]]
    }

    /// Counts a call that the thread posted, and puts its number into a register.
    pub fn post(&mut self, r: u8) -> Reply
        requires { self.old.count + 1 < 2 ^ 32 }
        ensures thread { self.new ≡ events.posted self.old r }
        ensures reply { result ≡ reply.Posted (self.old.count + 1) }
    {
        let seq = self.count + 1;
        self.give_result(r, seq);
        self.count = seq;
        Reply::Posted(seq)
    }

    /// Counts a call that the thread posted, and waits for its result with so many looks.
    pub fn post_and_wait(&mut self, looks: u32) -> Reply
        requires { self.old.count + 1 < 2 ^ 32 }
        ensures thread { self.new ≡ events.posted_and_waiting self.old looks }
        ensures reply { result ≡ reply.Posted (self.old.count + 1) }
    {
        let seq = self.count + 1;
        self.look_on(seq, looks);
        self.mode = Mode::Waiting;
        self.count = seq;
        Reply::Posted(seq)
    }

    /// Gives a server the call that it started, in all registers but r6.
    pub fn begin(&mut self, started: Started)
        ensures { self.new ≡ events.begun self.old started }
    {
        self.set_register(0, started.args[0]);
        self.set_register(1, started.args[1]);
        self.set_register(2, started.args[2]);
        self.set_register(3, started.args[3]);
        self.set_register(4, started.function);
        self.set_register(5, started.caller.0 as u32);
        self.set_register(7, 0);
        self.move_on();
    }
}
