ghost use Rattle.std.specs.Prelude.{◌≡◌, ℕ, ◌+◌, ◌≤◌, ◌∷◌, [], ◌++◌, true, false, length};

mod slate;

use crate::{Pass, Token, Tried};
use slate::{Note, Slate};
use std::test::Fail;
use std::thread;
use std::thread::Threads;

const TURNS: u32 = 5_000;

const TRIES: u32 = 1_000_000_000;

// One attempt to take the value, one note where it was taken, and whether there is one.
fn one_turn(token: &Token<Slate>, pass: Pass<Slate>, by: u32, what: u32) -> (Pass<Slate>, bool)
    requires { (pass.token ≡ token.now.id) × (pass.number ≡ by) }

    ensures same { (result.0.token ≡ pass.token) × (result.0.number ≡ pass.number) }
    ensures noted { result.1 ≡ true
        → result.0.entries ≡ pass.entries ++ record { by = by; what = what } ∷ [] }
    ensures missed { result.1 ≡ false → result.0.entries ≡ pass.entries }
{
    match token.try_take(pass) {
        Tried::Hold(mut hold) => {
            let noted = hold.value().note(by, what).is_ok();
            (token.give(hold), noted)
        }
        Tried::Busy {
            seen: _,
            found: _,
            pass,
        } => (pass, false),
    }
}

// Attempts until so many turns are made, and how many were.
fn turns(token: &Token<Slate>, first: Pass<Slate>, by: u32) -> (Pass<Slate>, u32)
    requires { (first.token ≡ token.now.id) × (first.number ≡ by) }

    ensures same { (result.0.token ≡ first.token) × (result.0.number ≡ first.number) }
    ensures more { length result.0.entries ≡ length first.entries + result.1 }
{
    let mut pass = first;
    let mut made = 0;
    for _ in 0..TRIES {
        if made == TURNS {
            break;
        }
        let (next, noted) = one_turn(token, pass, by, made);
        pass = next;
        if noted {
            made += 1;
        } else {
            thread::yield_now();
        }
    }
    (pass, made)
}

#[test]
fn a_second_pass_finds_an_odd_word(rt: HostRuntime) -> Result<(), Fail> {
    let Ok((token, mut passes)) = Token::new(rt.alloc(), Slate::new(rt.alloc(), 7), 2) else {
        panic!(rt; "memory")
    };
    let Some(second) = passes.pop() else {
        unreachable!()
    };
    let Some(first) = passes.pop() else {
        unreachable!()
    };
    let hold = match token.try_take(first) {
        Tried::Hold(hold) => hold,
        Tried::Busy { .. } => panic!(rt; "nobody has the value"),
    };
    let second = match token.try_take(second) {
        Tried::Busy { seen, found, pass } => {
            assert_eq!(rt; (seen, found), (1, 1));
            pass
        }
        Tried::Hold(again) => {
            token.give(again);
            panic!(rt; "the first pass has the value")
        }
    };
    passes.push(token.give(hold))?;
    passes.push(second)?;
    assert_eq!(rt; token.close(passes).mark(), 7);
    Ok(())
}

#[test]
fn a_hold_given_back_without_an_entry_leaves_none(rt: HostRuntime) -> Result<(), Fail> {
    let Ok((token, mut passes)) = Token::new(rt.alloc(), Slate::new(rt.alloc(), 7), 1) else {
        panic!(rt; "memory")
    };
    let Some(pass) = passes.pop() else {
        unreachable!()
    };
    let hold = match token.try_take(pass) {
        Tried::Hold(hold) => hold,
        Tried::Busy { .. } => panic!(rt; "nobody has the value"),
    };
    passes.push(token.give(hold))?;
    let slate = token.close(passes);
    assert_eq!(rt; slate.notes().len(), 0);
    Ok(())
}

#[test]
fn two_passes_leave_the_entries_of_each(rt: HostRuntime) -> Result<(), Fail> {
    let Ok((token, mut passes)) = Token::new(rt.alloc(), Slate::new(rt.alloc(), 7), 2) else {
        panic!(rt; "memory")
    };
    let Some(second) = passes.pop() else {
        unreachable!()
    };
    let Some(first) = passes.pop() else {
        unreachable!()
    };
    let (first, _) = one_turn(&token, first, 0, 30);
    let (second, _) = one_turn(&token, second, 1, 40);
    let (first, _) = one_turn(&token, first, 0, 50);
    passes.push(second)?;
    passes.push(first)?;
    let slate = token.close(passes);
    let wanted = [
        Note { by: 0, what: 30 },
        Note { by: 1, what: 40 },
        Note { by: 0, what: 50 },
    ];
    assert_eq!(rt; slate.notes(), wanted.as_slice());
    Ok(())
}

fn hand_round<R: Threads>(
    rt: &R,
    token: &Token<Slate>,
    first: Pass<Slate>,
    second: Pass<Slate>,
) -> ((Pass<Slate>, u32), (Pass<Slate>, u32))
    requires first { (first.token ≡ token.now.id) × (first.number ≡ 0) }
    requires second { (second.token ≡ token.now.id) × (second.number ≡ 1) }

    ensures first { (result.0.0.token ≡ token.now.id) × (result.0.0.number ≡ 0) }
    ensures second { (result.1.0.token ≡ token.now.id) × (result.1.0.number ≡ 1) }
{
    thread::join(
        rt,
        move || turns(token, first, 0),
        move || turns(token, second, 1),
    )
}

fn notes_by(slate: &Slate, by: u32) -> usize {
    slate.notes().iter().filter(|note| note.by == by).count()
}

#[test]
fn two_threads_hand_the_value_round_ten_thousand_times(rt: HostRuntime) -> Result<(), Fail> {
    let Ok((token, mut passes)) = Token::new(rt.alloc(), Slate::new(rt.alloc(), 7), 2) else {
        panic!(rt; "memory")
    };
    let Some(second) = passes.pop() else {
        unreachable!()
    };
    let Some(first) = passes.pop() else {
        unreachable!()
    };
    let ((first, mine), (second, theirs)) = hand_round(&rt, &token, first, second);
    passes.push(first)?;
    passes.push(second)?;
    let slate = token.close(passes);
    assert_eq!(rt; (mine, theirs), (TURNS, TURNS));
    assert_eq!(rt; (notes_by(&slate, 0), notes_by(&slate, 1)), (5_000, 5_000));
    assert_eq!(rt; slate.notes().len(), 10_000);
    Ok(())
}
