ghost use Rattle.std.specs.Prelude.{◌≡◌, ◌≤◌, ◌-◌, ◌++◌, length, IsErr, OnErr, OnOk};
ghost use Rattle.std.specs.Io.KnownBytes.{append_known};
ghost use Rattle.std.specs.List.{AllByRecursion, flat_map};
ghost use Rattle.flat_model.specs.Operands.{IsValidInstr};
ghost use Rattle.flat_model.specs.Sound.{IsSound, IsThread};
ghost use Rattle.io_edge.specs.Counts.{IsCounted};
ghost use Rattle.io_edge.specs.Written.{WrotePart};
ghost use Rattle.run_log.specs.Printed.{IsPrinted};
ghost use Rattle.uvisor_run.specs.CheckText.{box_line, box_text, check_text, head_text, holdings_text, irq_text, item_text, program_text, server_line, tail_text, thread_text, threads_of_box, threads_text};

use crate::check_text::{
    push_box, push_instruction, push_irq, push_item, push_server, push_thread,
};
use flat_model::{BoxPart, Config, Instr, IrqPart, Item, ThreadPart};
use io_edge::{Sink, WriteErr};
use run_log::Page;

// The items of a box.
fn put_items<K: Sink>(items: &[Item], page: &mut Page, sink: &mut K) -> Result<(), WriteErr>
    ensures { IsPrinted (K.written sink.old) (K.written sink.new) (K.faults sink.old)
        (K.faults sink.new) (page.old ++ flat_map item_text items.now) page.new result }
{
    'items: for item in items {
        page.make_room(sink)?;
        push_item(*item, page);
    }
    Ok(())
}

// The interrupt lines of a box.
fn put_irqs<K: Sink>(irqs: &[IrqPart], page: &mut Page, sink: &mut K) -> Result<(), WriteErr>
    ensures { IsPrinted (K.written sink.old) (K.written sink.new) (K.faults sink.old)
        (K.faults sink.new) (page.old ++ flat_map irq_text irqs.now) page.new result }
{
    'items: for irq in irqs {
        page.make_room(sink)?;
        push_irq(*irq, page);
    }
    Ok(())
}

// The instructions of a thread, from place 0 on.
fn put_program<K: Sink>(program: &[Instr], page: &mut Page, sink: &mut K) -> Result<(), WriteErr>
    requires valid { AllByRecursion IsValidInstr program.now }
    requires short { length program.now ≤ 256 }
    ensures { IsPrinted (K.written sink.old) (K.written sink.new) (K.faults sink.old)
        (K.faults sink.new) (page.old ++ program_text 0 program.now) page.new result }
{
    'items: for (place, instr) in program.iter().enumerate() {
        page.make_room(sink)?;
        push_instruction(place as u32, instr, page);
    }
    Ok(())
}

// A thread of a box: its line, and its program.
fn put_thread<K: Sink>(
    name: &[u8],
    k: u32,
    thread: &ThreadPart,
    page: &mut Page,
    sink: &mut K,
) -> Result<(), WriteErr>
    requires short { length name.now ≤ 16 }
    requires thread { IsThread thread.now }
    ensures { IsPrinted (K.written sink.old) (K.written sink.new) (K.faults sink.old)
        (K.faults sink.new) (page.old ++ thread_text name.now k thread.now) page.new result }
{
    page.make_room(sink)?;
    push_thread(name, k, thread.steps, page);
    put_program(thread.program.as_slice(), page, sink)
}

// The threads of a box, from index 0 on.
fn put_threads<K: Sink>(
    name: &[u8],
    threads: &[ThreadPart],
    page: &mut Page,
    sink: &mut K,
) -> Result<(), WriteErr>
    requires short { length name.now ≤ 16 }
    requires few { length threads.now ≤ 16 }
    requires threads { AllByRecursion IsThread threads.now }
    ensures { IsPrinted (K.written sink.old) (K.written sink.new) (K.faults sink.old)
        (K.faults sink.new) (page.old ++ threads_text name.now 0 threads.now) page.new result }
{
    'items: for (k, thread) in threads.iter().enumerate() {
        put_thread(name, k as u32, thread, page, sink)?;
    }
    Ok(())
}

// The threads of a box.
fn threads_of_box<'a>(config: &'a Config, part: &BoxPart) -> &'a [ThreadPart]
    requires { IsSound config.now }
    ensures threads { result.now ≡ threads_of_box config.now part.now }
    ensures few { length result.now ≤ 16 }
    ensures each { AllByRecursion IsThread result.now }
{
    let all = config.threads.as_slice();
    let from = (part.first as usize).min(all.len());
    let rest = &all[from..];
    let count = (part.threads as usize).min(rest.len());
    &rest[..count]
}

// The name of a box.
fn put_name<K: Sink>(name: &[u8], page: &mut Page, sink: &mut K) -> Result<(), WriteErr>
    requires short { length name.now ≤ 16 }
    ensures { IsPrinted (K.written sink.old) (K.written sink.new) (K.faults sink.old)
        (K.faults sink.new) (page.old ++ box_line name.now) page.new result }
{
    page.make_room(sink)?;
    push_box(name, page);
    Ok(())
}

// The index of a box's server.
fn put_server<K: Sink>(k: u32, page: &mut Page, sink: &mut K) -> Result<(), WriteErr>
    ensures { IsPrinted (K.written sink.old) (K.written sink.new) (K.faults sink.old)
        (K.faults sink.new) (page.old ++ server_line k) page.new result }
{
    page.make_room(sink)?;
    push_server(k, page);
    Ok(())
}

// The name of a box and its items.
fn put_holdings<K: Sink>(part: &BoxPart, page: &mut Page, sink: &mut K) -> Result<(), WriteErr>
    requires { length part.now.name ≤ 16 }
    ensures { IsPrinted (K.written sink.old) (K.written sink.new) (K.faults sink.old)
        (K.faults sink.new) (page.old ++ holdings_text part.now) page.new result }
{
    put_name(part.name.as_str().as_bytes(), page, sink)?;
    put_items(part.items.as_slice(), page, sink)
}

// The name of a box, its items and its interrupt lines.
fn put_head<K: Sink>(part: &BoxPart, page: &mut Page, sink: &mut K) -> Result<(), WriteErr>
    requires { length part.now.name ≤ 16 }
    ensures { IsPrinted (K.written sink.old) (K.written sink.new) (K.faults sink.old)
        (K.faults sink.new) (page.old ++ head_text part.now) page.new result }
{
    put_holdings(part, page, sink)?;
    put_irqs(part.irqs.as_slice(), page, sink)
}

// The place of a box's server among its threads.
fn server_index(part: &BoxPart) -> u32
    ensures { result ≡ part.now.server.0 - part.now.first }
{
    u32::from(part.server.0).saturating_sub(part.first)
}

// The index of a box's server, and its threads.
fn put_tail<K: Sink>(
    config: &Config,
    part: &BoxPart,
    page: &mut Page,
    sink: &mut K,
) -> Result<(), WriteErr>
    requires sound { IsSound config.now }
    requires short { length part.now.name ≤ 16 }
    ensures { IsPrinted (K.written sink.old) (K.written sink.new) (K.faults sink.old)
        (K.faults sink.new) (page.old ++ tail_text config.now part.now) page.new result }
{
    put_server(server_index(part), page, sink)?;
    put_threads(
        part.name.as_str().as_bytes(),
        threads_of_box(config, part),
        page,
        sink,
    )
}

// A box: its name, its items, its interrupt lines, its server and its threads.
fn put_box<K: Sink>(
    config: &Config,
    part: &BoxPart,
    page: &mut Page,
    sink: &mut K,
) -> Result<(), WriteErr>
    requires sound { IsSound config.now }
    requires short { length part.now.name ≤ 16 }
    ensures { IsPrinted (K.written sink.old) (K.written sink.new) (K.faults sink.old)
        (K.faults sink.new) (page.old ++ box_text config.now part.now) page.new result }
{
    put_head(part, page, sink)?;
    put_tail(config, part, page, sink)
}

// All boxes.
fn put_boxes<K: Sink>(config: &Config, page: &mut Page, sink: &mut K) -> Result<(), WriteErr>
    requires sound { IsSound config.now }
    ensures { IsPrinted (K.written sink.old) (K.written sink.new) (K.faults sink.old)
        (K.faults sink.new) (page.old ++ flat_map (box_text config.now) config.now.boxes)
        page.new result }
{
    let boxes = config.boxes.as_slice();
    'items: for part in boxes {
        put_box(config, part, page, sink)?;
    }
    Ok(())
}

/// Writes what an input was resolved to (docs/LOG.md), in few large pieces, and takes no memory.
#[tactic(auto, unfolding(crate::specs::CheckText::check_text))]
pub fn write_check<K: Sink>(config: &Config, sink: &mut K) -> Result<(), WriteErr>
    requires sound { IsSound config.now }

    ensures ok { OnOk result (K.written sink.new
        ≡ append_known (K.written sink.old) (check_text config.now)) }
    ensures err { OnErr result (WrotePart (K.written sink.old) (K.written sink.new)
        (check_text config.now)) }

    // It fails exactly where a write failed, which is counted once.
    ensures faults { IsCounted (IsErr result) (K.faults sink.old) (K.faults sink.new) }
{
    let mut page = Page::new();
    put_boxes(config, &mut page, sink)?;
    page.flush(sink)
}
