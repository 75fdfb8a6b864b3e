use crate::{Gate, HoldGate, NoGate};
use std::sync::atomic::{AtomicU64, Ordering};
use std::thread;
use std::thread::Threads;

// How often a worker looks before the other is taken for lost.
const POLLS: u32 = 1_000_000_000;

// Passes the steps of one worker in order. Behind each it notes in `last` how far it came, and it
// answers how far the other had come behind its step 2.
fn pass_all<G: Gate>(gate: &G, worker: u32, last: &AtomicU64, other: &AtomicU64) -> u64 {
    let mut seen = 0;
    for step in 1..5u32 {
        gate.pass(worker, step);
        if step == 2 {
            seen = other.load(Ordering::SeqCst);
        }
        last.store(u64::from(step), Ordering::SeqCst);
    }
    seen
}

// Both workers side by side, and what each saw of the other.
fn pass_both<R: Threads, G: Gate>(rt: &R, gate: &G) -> (u64, u64) {
    let first = AtomicU64::new(0);
    let second = AtomicU64::new(0);
    let (mine, theirs) = (&first, &second);
    thread::join(
        rt,
        move || pass_all(gate, 0, mine, theirs),
        move || pass_all(gate, 1, theirs, mine),
    )
}

#[test]
fn a_gate_holds_a_worker_until_the_other_has_passed(rt: HostRuntime) {
    // The held one waits at its step 2 for the other's call at step 3, which comes behind step 2.
    let gate = HoldGate::new(0, 2, 1, 3, POLLS);
    let (seen, _) = pass_both(&rt, &gate);
    assert!(rt; !gate.gave_up() && seen >= 2, "{seen}");

    let gate = HoldGate::new(1, 2, 0, 3, POLLS);
    let (_, seen) = pass_both(&rt, &gate);
    assert!(rt; !gate.gave_up() && seen >= 2, "{seen}");
}

#[test]
fn a_gate_gives_up_where_nobody_comes(rt: HostRuntime) {
    let gate = HoldGate::new(0, 2, 1, 3, 10);
    gate.pass(0, 1);
    gate.pass(0, 3);
    gate.pass(1, 2);
    assert!(rt; !gate.gave_up(), "neither step holds");
    gate.pass(0, 2);
    assert!(rt; gate.gave_up(), "worker 1 has passed step 2 alone");
}

#[test]
fn a_gate_lets_on_whoever_comes_behind(rt: HostRuntime) {
    let gate = HoldGate::new(0, 2, 1, 3, 10);
    gate.pass(1, 4);
    gate.pass(0, 2);
    assert!(rt; !gate.gave_up(), "a later step counts too");
    NoGate.pass(0, 2);
}
