ghost use Rattle.std.specs.Prelude.{◌≡◌, ◌+◌, ◌≤◌, true, length};
ghost use Rattle.rpc_gateway.specs.Sample.{three_boxes};
ghost use Rattle.rpc_gateway.specs.Servers.{is_server_thread};

use crate::Calls;
use crate::tests::boxes::{HELPER, OF_P, OF_Q, P, Q, S, SERVER, no_calls};
use flat_model::{BoxId, Collected, NoCall, OutOfMemory, Started, ThreadId, Ticket};
use std::alloc::Global;
use std::process::Abort;
use std::test::Fail;

// A call of the table. `Post` has one word for the box, and `Start` is one by that box's server.
#[derive(Clone, Copy, Debug)]
enum Step {
    Post(ThreadId, BoxId, u32),
    Start(BoxId, Ticket),
    Finish(ThreadId, u32),
    Collect(ThreadId, u32),
    Oldest(BoxId),
    Posted(BoxId),
    Serving(ThreadId),
}

// What it answers: a call's ticket or the next one, if there is one; what a server gets; what a caller gets; a count.
#[derive(Clone, Copy, PartialEq, Eq, Debug)]
enum Answer {
    Ticket(Option<Ticket>),
    Started(Started),
    NotNext(Option<Ticket>),
    NoCall,
    Collected(Collected),
    Count(u32),
}

fn server_of(b: BoxId) -> ThreadId
    ensures { is_server_thread three_boxes result.0 ≡ true }
{
    match b.0 {
        0 => SERVER,
        1 => OF_P,
        _ => OF_Q,
    }
}

// A start by a server that serves no call.
fn start(rt: &impl Abort, calls: &mut Calls, b: BoxId, ticket: Ticket) -> Answer
    requires { calls.old.config ≡ three_boxes }
    ensures config { calls.new.config ≡ calls.old.config }
    ensures spare { calls.new.spare ≡ calls.old.spare }
{
    let server = server_of(b);
    assert!(rt; calls.serving(server).is_none());
    match calls.start(server, ticket) {
        Ok(started) => Answer::Started(started),
        Err(refused) => Answer::NotNext(refused.next),
    }
}

fn answer_to(rt: &impl Abort, calls: &mut Calls, step: Step) -> Answer
    requires config { calls.old.config ≡ three_boxes }
    requires spare { 1 ≤ calls.old.spare }
    ensures config { calls.new.config ≡ calls.old.config }
    ensures spare { calls.old.spare ≤ calls.new.spare + 1 }
{
    match step {
        Step::Post(t, b, word) => Answer::Ticket(Some(calls.call(t, b, 7, [word, 2, 3, 4]))),
        Step::Start(b, ticket) => start(rt, calls, b, ticket),
        Step::Finish(t, v) => match calls.finish(t, v) {
            Ok(ticket) => Answer::Ticket(Some(ticket)),
            Err(NoCall) => Answer::NoCall,
        },
        Step::Collect(t, seq) => Answer::Collected(calls.collect(t, seq)),
        Step::Oldest(b) => Answer::Ticket(calls.oldest(b)),
        Step::Posted(b) => Answer::Count(calls.posted(b)),
        Step::Serving(t) => Answer::Ticket(calls.serving(t)),
    }
}

// Makes the calls of a list on a new table, each of which answers as it says there.
fn check(rt: &impl Abort, alloc: Global, steps: &[(Step, Answer)]) -> Result<(), OutOfMemory>
    requires { length steps.now ≤ 40 }
{
    let mut calls = no_calls(alloc)?;
    for (step, wanted) in steps {
        let answer = answer_to(rt, &mut calls, *step);
        assert_eq!(rt; answer, *wanted, "at {step:?}");
    }
    Ok(())
}

fn ticket(thread: ThreadId, seq: u32) -> Ticket {
    Ticket { thread, seq }
}

fn found(thread: ThreadId, seq: u32) -> Answer {
    Answer::Ticket(Some(ticket(thread, seq)))
}

fn started(word: u32, caller: BoxId) -> Answer {
    Answer::Started(Started {
        function: 7,
        args: [word, 2, 3, 4],
        caller,
    })
}

fn done(value: u32) -> Answer {
    Answer::Collected(Collected::Done(value))
}

const NONE: Answer = Answer::Ticket(None);

const WAITING: Answer = Answer::Collected(Collected::Waiting);

const NO_SUCH: Answer = Answer::Collected(Collected::NoSuch);

#[test]
fn calls_start_in_the_order_posted(rt: HostRuntime) -> Result<(), Fail> {
    let steps = [
        (Step::Oldest(S), NONE),
        (Step::Post(OF_P, S, 10), found(OF_P, 1)),
        (Step::Post(OF_Q, S, 20), found(OF_Q, 1)),
        (Step::Post(OF_P, S, 10), found(OF_P, 2)),
        (Step::Oldest(S), found(OF_P, 1)),
        (Step::Start(S, ticket(OF_P, 1)), started(10, P)),
        (Step::Finish(SERVER, 20), found(OF_P, 1)),
        (Step::Collect(OF_P, 1), done(20)),
        (Step::Collect(OF_Q, 1), WAITING),
        (Step::Oldest(S), found(OF_Q, 1)),
        (Step::Start(S, ticket(OF_Q, 1)), started(20, Q)),
        (Step::Finish(SERVER, 40), found(OF_Q, 1)),
        (Step::Collect(OF_Q, 1), done(40)),
        (Step::Collect(OF_P, 1), NO_SUCH),
        (Step::Oldest(S), found(OF_P, 2)),
    ];
    check(&rt, rt.alloc(), &steps)?;
    Ok(())
}

#[test]
fn a_start_of_another_ticket_is_told_the_next_one(rt: HostRuntime) -> Result<(), Fail> {
    let next = Answer::NotNext(Some(ticket(OF_Q, 1)));
    let steps = [
        (Step::Post(OF_Q, S, 20), found(OF_Q, 1)),
        (Step::Start(S, ticket(OF_Q, 2)), next),
        (Step::Start(S, ticket(OF_P, 1)), Answer::NotNext(None)),
        (Step::Post(OF_Q, S, 21), found(OF_Q, 2)),
        (Step::Start(S, ticket(OF_Q, 2)), next),
        (Step::Posted(S), Answer::Count(2)),
        (Step::Serving(SERVER), NONE),
        (Step::Start(S, ticket(OF_Q, 1)), started(20, Q)),
        (Step::Serving(SERVER), found(OF_Q, 1)),
    ];
    check(&rt, rt.alloc(), &steps)?;
    Ok(())
}

#[test]
fn a_server_starts_calls_to_its_own_box_alone(rt: HostRuntime) -> Result<(), Fail> {
    let steps = [
        (Step::Post(OF_P, S, 10), found(OF_P, 1)),
        (Step::Post(OF_P, Q, 11), found(OF_P, 2)),
        (
            Step::Start(Q, ticket(OF_P, 1)),
            Answer::NotNext(Some(ticket(OF_P, 2))),
        ),
        (Step::Start(P, ticket(OF_P, 1)), Answer::NotNext(None)),
        (Step::Start(Q, ticket(OF_P, 2)), started(11, P)),
        (Step::Serving(OF_Q), found(OF_P, 2)),
        (Step::Serving(SERVER), NONE),
        (Step::Oldest(S), found(OF_P, 1)),
        (Step::Oldest(Q), NONE),
    ];
    check(&rt, rt.alloc(), &steps)?;
    Ok(())
}

#[test]
fn eight_posted_calls_are_counted(rt: HostRuntime) -> Result<(), Fail> {
    let steps = [
        (Step::Post(OF_P, S, 0), found(OF_P, 1)),
        (Step::Post(OF_P, S, 0), found(OF_P, 2)),
        (Step::Post(OF_P, S, 0), found(OF_P, 3)),
        (Step::Post(OF_P, S, 0), found(OF_P, 4)),
        (Step::Post(OF_P, S, 0), found(OF_P, 5)),
        (Step::Post(OF_P, S, 0), found(OF_P, 6)),
        (Step::Post(OF_P, S, 0), found(OF_P, 7)),
        (Step::Posted(S), Answer::Count(7)),
        (Step::Post(OF_P, S, 0), found(OF_P, 8)),
        (Step::Posted(S), Answer::Count(8)),
        (Step::Posted(P), Answer::Count(0)),
        (Step::Start(S, ticket(OF_P, 1)), started(0, P)),
        (Step::Posted(S), Answer::Count(7)),
        (Step::Post(OF_P, S, 0), found(OF_P, 9)),
        (Step::Posted(S), Answer::Count(8)),
    ];
    check(&rt, rt.alloc(), &steps)?;
    Ok(())
}

#[test]
fn a_server_finishes_what_it_serves_and_nothing_else(rt: HostRuntime) -> Result<(), Fail> {
    let steps = [
        (Step::Post(OF_P, S, 10), found(OF_P, 1)),
        (Step::Finish(SERVER, 1), Answer::NoCall),
        (Step::Start(S, ticket(OF_P, 1)), started(10, P)),
        (Step::Serving(HELPER), NONE),
        (Step::Finish(HELPER, 2), Answer::NoCall),
        (Step::Finish(OF_P, 2), Answer::NoCall),
        (Step::Finish(ThreadId(4), 2), Answer::NoCall),
        (Step::Collect(OF_P, 1), WAITING),
        (Step::Finish(SERVER, 3), found(OF_P, 1)),
        (Step::Finish(SERVER, 4), Answer::NoCall),
        (Step::Serving(SERVER), NONE),
        (Step::Collect(OF_P, 1), done(3)),
    ];
    check(&rt, rt.alloc(), &steps)?;
    Ok(())
}

#[test]
fn a_result_is_given_once_and_to_its_caller(rt: HostRuntime) -> Result<(), Fail> {
    let steps = [
        (Step::Collect(OF_P, 1), NO_SUCH),
        (Step::Post(OF_P, S, 10), found(OF_P, 1)),
        (Step::Collect(OF_P, 1), WAITING),
        (Step::Start(S, ticket(OF_P, 1)), started(10, P)),
        (Step::Collect(OF_P, 1), WAITING),
        (Step::Finish(SERVER, 20), found(OF_P, 1)),
        (Step::Collect(OF_Q, 1), NO_SUCH),
        (Step::Collect(SERVER, 1), NO_SUCH),
        (Step::Collect(OF_P, 0), NO_SUCH),
        (Step::Collect(OF_P, 2), NO_SUCH),
        (Step::Collect(OF_P, 1), done(20)),
        (Step::Collect(OF_P, 1), NO_SUCH),
    ];
    check(&rt, rt.alloc(), &steps)?;
    Ok(())
}

#[test]
fn three_results_are_collected_out_of_order(rt: HostRuntime) -> Result<(), Fail> {
    let steps = [
        (Step::Post(OF_P, S, 1), found(OF_P, 1)),
        (Step::Post(OF_P, S, 2), found(OF_P, 2)),
        (Step::Post(OF_P, S, 3), found(OF_P, 3)),
        (Step::Start(S, ticket(OF_P, 1)), started(1, P)),
        (Step::Finish(SERVER, 100), found(OF_P, 1)),
        (Step::Start(S, ticket(OF_P, 2)), started(2, P)),
        (Step::Finish(SERVER, 200), found(OF_P, 2)),
        (Step::Start(S, ticket(OF_P, 3)), started(3, P)),
        (Step::Finish(SERVER, 300), found(OF_P, 3)),
        (Step::Collect(OF_P, 3), done(300)),
        (Step::Collect(OF_P, 1), done(100)),
        (Step::Collect(OF_P, 3), NO_SUCH),
        (Step::Collect(OF_P, 2), done(200)),
    ];
    check(&rt, rt.alloc(), &steps)?;
    Ok(())
}

#[test]
fn a_gateway_serves_the_boxes_of_its_list(rt: HostRuntime) -> Result<(), Fail> {
    let calls = no_calls(rt.alloc())?;
    for (b, g, allowed) in [
        (P, 0, Some((S, 7))),
        (Q, 0, Some((S, 7))),
        (S, 0, None),
        (S, 1, Some((Q, 9))),
        (P, 1, Some((Q, 9))),
        (Q, 1, None),
        (P, 2, None),
        (P, 0xFFFF_FFFF, None),
        (BoxId(9), 0, None),
    ] {
        assert_eq!(rt; calls.allowed(b, g), allowed, "{b:?} by {g}");
    }
    Ok(())
}
