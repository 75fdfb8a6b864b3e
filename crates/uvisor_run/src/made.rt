ghost use Rattle.std.specs.Prelude.{◌≡◌, ◌≤◌, ◌⊎◌, ℕ};
ghost use Rattle.flat_model.specs.Sound.{IsSound};
ghost use Rattle.uvisor_run.specs.Headline.{HasConfig, IsTallied, IsTold, IsToldInMemory};
ghost use Rattle.uvisor_run.specs.Output.{counts_output, make_output, output_of_making, tally_output};
ghost use Rattle.workload.specs.MadeInput.{made_input};
ghost use Rattle.workload.specs.Tally.{tally_line};

use crate::acceptance::{Accepted, accept_document};
use crate::answers::{NO_MEMORY, WRITE_FAULT, answer_refusal};
use crate::commands::Making;
use crate::scripting::run_script;
use flat_model::{Config, ConfigErr, Log};
use io_edge::{Sink, WriteErr, write_all};
use std::alloc::Global;
use workload::{make_input, write_tally};

// Writes a text.
fn answer_text<K: Sink>(text: &[u8], sink: &mut K) -> u8
    ensures { IsTold (record { status = 0; text = text.now })
        (K.written sink.old) (K.written sink.new) (K.faults sink.old) (K.faults sink.new) result }
{
    match write_all(sink, text) {
        Ok(()) => 0,
        Err(WriteErr::Fault) => WRITE_FAULT,
    }
}

// Writes the text of the input that is made from this number.
#[tactic(auto, using(crate::proofs::Told::refused_memory))]
fn serve_make<K: Sink>(alloc: Global, n: u32, sink: &mut K) -> u8
    ensures { IsToldInMemory (make_output n)
        (K.written sink.old) (K.written sink.new) (K.faults sink.old) (K.faults sink.new) result }
{
    let Ok(text) = make_input(alloc, n) else {
        return NO_MEMORY;
    };
    answer_text(text.as_slice(), sink)
}

// Writes the counts of a log.
fn answer_counts<K: Sink>(n: u32, log: &Log, sink: &mut K) -> u8
    ensures { IsTold (record { status = 0; text = tally_line n log.now })
        (K.written sink.old) (K.written sink.new) (K.faults sink.old) (K.faults sink.new) result }
{
    match write_tally(n, log, sink) {
        Ok(()) => 0,
        Err(WriteErr::Fault) => WRITE_FAULT,
    }
}

// Runs the script of a configuration that was made from this number, and writes the counts of its
// log.
#[tactic(auto, using(crate::proofs::Told::refused_memory))]
fn serve_counts<K: Sink>(alloc: Global, n: u32, config: Config, sink: &mut K) -> u8
    requires sound { IsSound config }
    ensures { IsToldInMemory (counts_output n config)
        (K.written sink.old) (K.written sink.new) (K.faults sink.old) (K.faults sink.new) result }
{
    let Ok((_, log)) = run_script(alloc, config) else {
        return NO_MEMORY;
    };
    answer_counts(n, &log, sink)
}

// Accepts and runs the bytes that were made from this number, and writes the counts of their log.
#[tactic(auto, using(crate::proofs::Told::refused_memory))]
fn serve_made<K: Sink>(alloc: Global, n: u32, bytes: &[u8], sink: &mut K) -> u8
    requires { bytes.now ≡ made_input n }
    ensures told { IsToldInMemory (tally_output n)
        (K.written sink.old) (K.written sink.new) (K.faults sink.old) (K.faults sink.new) result }
    ensures config { result ≡ 0 → HasConfig (made_input n) }
{
    match accept_document(alloc, bytes) {
        Ok(Accepted { document, config }) => {
            let status = serve_counts(alloc, n, config, sink);
            // As for an input that was read, the document is given back last.
            drop(document);
            status
        }
        Err(ConfigErr::Refused(refusal)) => answer_refusal(refusal, sink),
        Err(ConfigErr::Memory) => NO_MEMORY,
    }
}

// Runs the input that is made from this number, and writes the counts of its log.
#[tactic(auto, using(crate::proofs::Told::refused_memory))]
fn serve_tally<K: Sink>(alloc: Global, n: u32, sink: &mut K) -> u8
    ensures told { IsToldInMemory (tally_output n)
        (K.written sink.old) (K.written sink.new) (K.faults sink.old) (K.faults sink.new) result }
    ensures config { result ≡ 0 → HasConfig (made_input n) }
{
    let Ok(text) = make_input(alloc, n) else {
        return NO_MEMORY;
    };
    serve_made(alloc, n, text.as_slice(), sink)
}

/// Serves a command that makes its input.
pub fn serve_making<K: Sink>(alloc: Global, making: Making, sink: &mut K) -> u8
    ensures known { (result ≤ 1) ⊎ ((result ≡ 4) ⊎ (result ≡ 5)) }
    ensures told { IsToldInMemory (output_of_making making)
        (K.written sink.old) (K.written sink.new) (K.faults sink.old) (K.faults sink.new) result }
    ensures tallied { result ≡ 0 → (n : ℕ) → making ≡ Making.Tally n
        → IsTallied n (K.written sink.old) (K.written sink.new) }
{
    match making {
        Making::Make(n) => serve_make(alloc, n, sink),
        Making::Tally(n) => serve_tally(alloc, n, sink),
    }
}
