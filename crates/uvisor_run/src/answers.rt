ghost use Rattle.uvisor_run.specs.Headline.{IsTold};
ghost use Rattle.uvisor_run.specs.Output.{refused_output, usage_line, usage_output};

use crate::refusal_text::push_refusal;
use flat_model::Refused;
use io_edge::{Sink, WriteErr};
use run_log::Page;

/// The status of a run whose input is refused.
pub const REFUSED: u8 = 1;

/// The status of a run whose words are no command.
pub const USAGE: u8 = 2;

/// The status of a run in which a read failed.
pub const READ_FAULT: u8 = 3;

/// The status of a run in which a write failed.
pub const WRITE_FAULT: u8 = 4;

/// The status of a run that memory was refused.
pub const NO_MEMORY: u8 = 5;

/// Writes how the program is called.
#[tactic(auto, unfolding(crate::specs::Output::usage_line))]
pub fn answer_usage<K: Sink>(sink: &mut K) -> u8
    ensures { IsTold usage_output
        (K.written sink.old) (K.written sink.new) (K.faults sink.old) (K.faults sink.new) result }
{
    let mut page = Page::new();
    page.push_bytes(b"usage: uvisor script | threads | check | make N | tally N\n");
    match page.flush(sink) {
        Ok(()) => USAGE,
        Err(WriteErr::Fault) => WRITE_FAULT,
    }
}

/// Writes the line of a refusal.
pub fn answer_refusal<K: Sink>(refusal: Refused, sink: &mut K) -> u8
    ensures { IsTold (refused_output refusal)
        (K.written sink.old) (K.written sink.new) (K.faults sink.old) (K.faults sink.new) result }
{
    let mut page = Page::new();
    push_refusal(refusal, &mut page);
    match page.flush(sink) {
        Ok(()) => REFUSED,
        Err(WriteErr::Fault) => WRITE_FAULT,
    }
}
