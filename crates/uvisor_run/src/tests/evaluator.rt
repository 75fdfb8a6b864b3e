ghost use Rattle.flat_model.specs.Sound.{IsSound};

use crate::tests::boards::{ONE_BOX, SENSOR_BOARD};
use crate::tests::calls::two_callers;
use crate::tests::lines::two_rings;
use crate::tests::pages::THREE_PAGES;
use crate::{accept, run_script};
use flat_model::{Config, FlatState, Log, Logged, Reply, flat_step};
use std::alloc::Global;
use std::process::Abort;
use std::test::Fail;

// The replies of a log's entries, in order.
fn replies_of(alloc: Global, log: &Log) -> Result<Vec<Reply>, Fail> {
    let mut replies = Vec::new(alloc);
    for item in log.items.as_slice() {
        if let Logged::Core(entry) = item {
            replies.push(entry.reply)?;
        }
    }
    Ok(replies)
}

// What the plain evaluator answers to the choices of a log.
fn evaluated_replies(alloc: Global, config: &Config, log: &Log) -> Result<Vec<Reply>, Fail>
    requires sound { IsSound config.now }
{
    let mut state = FlatState::opening(alloc, config).map_err(|_| "no memory")?;
    let mut replies = Vec::new(alloc);
    for item in log.items.as_slice() {
        if let Logged::Core(entry) = item {
            replies.push(flat_step(&mut state, config, &entry.choice))?;
        }
    }
    Ok(replies)
}

/// Checks that the machine replies to the script of an input as the plain evaluator does.
pub fn check_evaluated(rt: &impl Abort, alloc: Global, input: &str) -> Result<(), Fail> {
    let run = accept(alloc, input.as_bytes()).map_err(|_| "refused")?;
    let (_, log) = run_script(alloc, run).map_err(|_| "no memory")?;
    let config = accept(alloc, input.as_bytes()).map_err(|_| "refused")?;
    let replies = replies_of(alloc, &log)?;
    let evaluated = evaluated_replies(alloc, &config, &log)?;
    assert_eq!(rt; replies.as_slice(), evaluated.as_slice(), "of {input}");
    Ok(())
}

#[test]
fn the_machine_replies_as_the_plain_evaluator(rt: HostRuntime) -> Result<(), Fail> {
    let calls = two_callers(rt.alloc())?;
    let rings = two_rings(rt.alloc())?;
    for input in [
        ONE_BOX,
        THREE_PAGES,
        calls.as_str(),
        rings.as_str(),
        SENSOR_BOARD,
    ] {
        check_evaluated(&rt, rt.alloc(), input)?;
    }
    Ok(())
}
