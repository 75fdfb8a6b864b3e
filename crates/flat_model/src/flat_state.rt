ghost use Rattle.std.specs.Prelude.{◌≡◌, IfOk};
ghost use Rattle.flat_model.specs.Evaluator.{flat_of};
ghost use Rattle.flat_model.specs.Run.{opening_state};
ghost use Rattle.flat_model.specs.Sound.{IsSound};
ghost use Rattle.flat_model.specs.Step.{step};
ghost use Rattle.flat_model.specs.Stepping.{CanGoOn};

use crate::events::{Choice, Reply};
use crate::fitting::fits;
use crate::lists::Items;
use crate::opening::opening_threads;
use crate::parts::Config;
use crate::plain::PlainKernel;
use crate::states::ThreadState;
use crate::step::{serve_at, turn_at};
use addr_base::OutOfMemory;
use std::alloc::Global;
use std::marker::Model;

/// A state of the flat machine, which contracts see with the configuration that it is of. Each thread that may run
/// has steps left, its calls are counted, and there is room for those that may come.
#[derive(Drop)]
pub struct FlatState {
    kernel: PlainKernel,
    threads: Items<ThreadState>,
}

impl Model for FlatState {
    ghost use Rattle.flat_model.specs.Evaluator.{EvaluatorState, flat_of};
    ghost use Rattle.flat_model.specs.Stepping.{CanGoOn};

    ghost Value = { EvaluatorState };

    ghost view = { λ s. record { config = s.kernel.config; flat = flat_of s.kernel s.threads } };

    ghost invariant = { λ s. CanGoOn s.kernel.config (flat_of s.kernel s.threads) };
}

impl FlatState {
    /// The state at the start.
    pub fn opening(alloc: Global, cfg: &Config) -> Result<FlatState, OutOfMemory>
        requires { IsSound cfg.now }
        ensures { IfOk result (λ state.
            state ≡ record { config = cfg.now; flat = opening_state cfg.now }) }
    {
        let kernel = PlainKernel::opening(alloc, cfg)?;
        let threads = opening_threads(alloc, cfg)?;
        Ok(FlatState { kernel, threads })
    }
}

// What a choice does: one that does not fit changes nothing.
fn flat_event(
    cfg: &Config,
    kernel: &mut PlainKernel,
    threads: &mut Items<ThreadState>,
    choice: Choice,
) -> Reply
    requires config { kernel.old.config ≡ cfg.now }
    requires sound { IsSound cfg.now }
    requires kept { CanGoOn kernel.old.config (flat_of kernel.old threads.old) }
    ensures exact { step cfg.now (flat_of kernel.old threads.old) choice
        ≡ (flat_of kernel.new threads.new, result) }
    ensures config { kernel.new.config ≡ kernel.old.config }
{
    if !fits(cfg, kernel, threads, choice) {
        return Reply::Ended;
    }
    match choice {
        Choice::Turn { t, room } => turn_at(cfg, kernel, threads, t, room),
        Choice::Start { t, ticket } => serve_at(cfg, kernel, threads, t, Some(ticket)),
        Choice::Idle { t } => serve_at(cfg, kernel, threads, t, None),
        Choice::Ring { line, by: _ } => {
            kernel.latch(line);
            Reply::Done
        }
    }
}

/// One step of the flat machine: the plain evaluator, for tests.
pub fn flat_step(state: &mut FlatState, cfg: &Config, choice: &Choice) -> Reply
    requires of { state.old.config ≡ cfg.now }
    requires sound { IsSound cfg.now }
    ensures exact { step cfg.now state.old.flat choice.now ≡ (state.new.flat, result) }
    ensures config { state.new.config ≡ state.old.config }
{
    flat_event(cfg, &mut state.kernel, &mut state.threads, *choice)
}
