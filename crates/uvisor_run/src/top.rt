ghost use Rattle.std.specs.Prelude.{◌≡◌, ◌≢◌, ◌≤◌, ◌⊎◌, true, map, string_bytes, IsNone, IfSome};
ghost use Rattle.flat_model.specs.Log.{IsNamed};
ghost use Rattle.flat_model.specs.OneLog.{script_log};
ghost use Rattle.flat_model.specs.Sound.{IsSound};
ghost use Rattle.io_edge.specs.Counts.{Rose};
ghost use Rattle.uvisor_run.specs.Headline.{HasConfig, IsAnswered, IsCommandRun, IsDone, IsMakingRun, IsTold, IsToldInMemory, IsUsageRun};
ghost use Rattle.uvisor_run.specs.Output.{command_of, log_output, making_of, output_for, output_of, output_of_making};

use crate::acceptance::{Accepted, INPUT_LIMIT, accept_document};
use crate::answers::{NO_MEMORY, READ_FAULT, WRITE_FAULT, answer_refusal, answer_usage};
use crate::check_writing::write_check;
use crate::commands::{Command, command_of, making_of};
use crate::made::serve_making;
use crate::scripting::run_script;
use flat_model::{Config, ConfigErr, Log, Refused};
use io_edge::{ReadErr, Sink, Source, WriteErr, read_all};
use run_log::write_log;
use std::alloc::Global;

// Writes a log.
fn answer_log<K: Sink>(config: &Config, log: &Log, sink: &mut K) -> u8
    requires sound { IsSound config.now }
    requires named { IsNamed config.now log.now }
    ensures { IsTold (log_output config.now log.now)
        (K.written sink.old) (K.written sink.new) (K.faults sink.old) (K.faults sink.new) result }
{
    match write_log(config, log, sink) {
        Ok(()) => 0,
        Err(WriteErr::Fault) => WRITE_FAULT,
    }
}

// Runs the script of a configuration and writes its log.
#[tactic(auto, using(crate::proofs::Told::refused_memory))]
fn serve_script<K: Sink>(alloc: Global, config: Config, sink: &mut K) -> u8
    requires sound { IsSound config }
    ensures { IsToldInMemory (log_output config (script_log config))
        (K.written sink.old) (K.written sink.new) (K.faults sink.old) (K.faults sink.new) result }
{
    let Ok((config, log)) = run_script(alloc, config) else {
        return NO_MEMORY;
    };
    answer_log(&config, &log, sink)
}

// Writes what a configuration is.
#[tactic(auto, unfolding(crate::specs::Output::output_of))]
fn serve_check<K: Sink>(config: &Config, sink: &mut K) -> u8
    requires { IsSound config.now }
    ensures { IsTold (output_for Command.Check config.now)
        (K.written sink.old) (K.written sink.new) (K.faults sink.old) (K.faults sink.new) result }
{
    match write_check(config, sink) {
        Ok(()) => 0,
        Err(WriteErr::Fault) => WRITE_FAULT,
    }
}

// Serves a command of a configuration.
#[tactic(auto, using(crate::proofs::Told::check_told))]
fn serve_config<K: Sink>(alloc: Global, command: Command, config: Config, sink: &mut K) -> u8
    requires { IsSound config }
    ensures { IsToldInMemory (output_for command config)
        (K.written sink.old) (K.written sink.new) (K.faults sink.old) (K.faults sink.new) result }
{
    match command {
        Command::Check => serve_check(&config, sink),
        Command::Script => serve_script(alloc, config, sink),
    }
}

// Serves a command of the bytes of an input.
#[tactic(auto, using(crate::proofs::Told::config_known, crate::proofs::Told::refused_memory))]
fn serve_bytes<K: Sink>(alloc: Global, command: Command, bytes: &[u8], sink: &mut K) -> u8
    ensures told { IsToldInMemory (output_of command bytes.now)
        (K.written sink.old) (K.written sink.new) (K.faults sink.old) (K.faults sink.new) result }
    ensures config { result ≡ 0 → HasConfig bytes.now }
    ensures known { (result ≤ 1) ⊎ ((result ≡ 4) ⊎ (result ≡ 5)) }
{
    match accept_document(alloc, bytes) {
        Ok(Accepted { document, config }) => {
            let status = serve_config(alloc, command, config, sink);
            // A document has many small pieces. Given back before the machine takes its memory, all
            // would be joined first.
            drop(document);
            status
        }
        Err(ConfigErr::Refused(refusal)) => answer_refusal(refusal, sink),
        Err(ConfigErr::Memory) => NO_MEMORY,
    }
}

// Serves a command of what a source has left.
#[tactic(auto, using(crate::proofs::Told::memory_run, crate::proofs::Told::read_fault_run))]
fn serve<S: Source, K: Sink>(alloc: Global, command: Command, source: &mut S, sink: &mut K) -> u8
    ensures { IsCommandRun command
        (S.left source.old) (S.left source.new) (S.faults source.old) (S.faults source.new)
        (K.written sink.old) (K.written sink.new) (K.faults sink.old) (K.faults sink.new) result }
{
    match read_all(alloc, source, INPUT_LIMIT) {
        Ok(bytes) => serve_bytes(alloc, command, bytes.as_slice(), sink),
        Err(ReadErr::TooLong) => answer_refusal(Refused::TooLong, sink),
        Err(ReadErr::Fault) => READ_FAULT,
        Err(ReadErr::Memory) => NO_MEMORY,
    }
}

/// Does what the words after the program's name say, and answers the status (docs/MANUAL.md):
/// `script` and `check` read the source and write to the sink, `make N` and `tally N` make their
/// input and write to the sink; other words are no command, and the usage line is written.
#[tactic(auto, using(crate::proofs::Told::run_complete, crate::proofs::MakingRuns::making_run, crate::proofs::MakingRuns::making_done, crate::proofs::MakingRuns::no_making))]
pub fn scripted<S: Source, K: Sink>(
    alloc: Global,
    words: &Vec<String>,
    source: &mut S,
    sink: &mut K,
) -> u8
    // Words that are no command: the usage line, whatever the source.
    ensures usage { IsNone (command_of (map string_bytes words.now.items))
        → IsNone (making_of (map string_bytes words.now.items)) → IsUsageRun
        (S.left source.old) (S.left source.new) (S.faults source.old) (S.faults source.new)
        (K.written sink.old) (K.written sink.new) (K.faults sink.old) (K.faults sink.new) result }

    // A command: what is known of each status.
    ensures command { IfSome (command_of (map string_bytes words.now.items)) (λ command.
        IsCommandRun command
        (S.left source.old) (S.left source.new) (S.faults source.old) (S.faults source.new)
        (K.written sink.old) (K.written sink.new) (K.faults sink.old) (K.faults sink.new) result) }

    // Where neither count rose, a command is answered, or memory was refused.
    ensures complete { IfSome (command_of (map string_bytes words.now.items)) (λ command.
        ¬ Rose (S.faults source.old) (S.faults source.new)
        → ¬ Rose (K.faults sink.old) (K.faults sink.new) → result ≢ 5
        → IsAnswered command (S.left source.old) (K.written sink.old) (K.written sink.new) result) }

    // A command that makes its input: what is known of each status. Nothing is read.
    ensures making { IfSome (making_of (map string_bytes words.now.items)) (λ making.
        IsMakingRun making
        (S.left source.old) (S.left source.new) (S.faults source.old) (S.faults source.new)
        (K.written sink.old) (K.written sink.new) (K.faults sink.old) (K.faults sink.new) result) }

    // Where the sink's count did not rise, it is answered, or memory was refused.
    ensures making_complete { IfSome (making_of (map string_bytes words.now.items)) (λ making.
        ¬ Rose (K.faults sink.old) (K.faults sink.new) → result ≢ 5
        → IsDone (output_of_making making) (K.written sink.old) (K.written sink.new) result) }
{
    match command_of(words) {
        Some(command) => serve(alloc, command, source, sink),
        None => match making_of(words) {
            Some(making) => serve_making(alloc, making, sink),
            None => answer_usage(sink),
        },
    }
}
