use std::sync::atomic::{AtomicU64, Ordering};
use std::thread;

/// What each worker of a run passes before each of its steps. It lets everyone on in the end, and
/// promises nothing else.
pub trait Gate: Sync {
    /// Lets the worker on to its step, which are counted from 1.
    fn pass(&self, worker: u32, step: u32);
}

/// A gate that stops nobody.
#[derive(Clone, Copy, Debug)]
pub struct NoGate;

impl Gate for NoGate {
    fn pass(&self, _worker: u32, _step: u32) {}
}

/// A gate for tests. It holds one worker at one of its steps until another worker has passed a
/// step of its own, or until it has looked for that often enough.
#[derive(Drop)]
pub struct HoldGate {
    held: u32,
    at: u32,
    until: u32,
    passed: u32,
    polls: u32,
    // 1 once the worker that is waited for has passed its step.
    came: AtomicU64,
    // 1 once a worker was held for all polls.
    spent: AtomicU64,
}

impl HoldGate {
    /// A gate that holds worker `held` at its step `at` until worker `until` has passed a step of
    /// at least `passed`, for at most `polls` looks.
    pub fn new(held: u32, at: u32, until: u32, passed: u32, polls: u32) -> HoldGate {
        HoldGate {
            held,
            at,
            until,
            passed,
            polls,
            came: AtomicU64::new(0),
            spent: AtomicU64::new(0),
        }
    }

    /// Whether a worker was held for all the looks that there may be.
    pub fn gave_up(&self) -> bool {
        self.spent.load(Ordering::SeqCst) != 0
    }

    // Looks for the other worker, and lets others run in between.
    fn hold(&self) {
        for _ in 0..self.polls {
            if self.came.load(Ordering::SeqCst) != 0 {
                return;
            }
            thread::yield_now();
        }
        self.spent.store(1, Ordering::SeqCst);
    }
}

impl Gate for HoldGate {
    fn pass(&self, worker: u32, step: u32) {
        if worker == self.until && step >= self.passed {
            self.came.store(1, Ordering::SeqCst);
        }
        if worker == self.held && step == self.at {
            self.hold();
        }
    }
}
