ghost use Rattle.std.specs.Prelude.{◌≡◌, true, ◌≤◌, ◌++◌, length, IsErr, OnErr, OnOk};
ghost use Rattle.std.specs.Io.KnownBytes.{append_known};
ghost use Rattle.std.specs.List.{AllByRecursion, flat_map, list_all};
ghost use Rattle.flat_model.specs.Log.{IsNamed, is_named_item};
ghost use Rattle.flat_model.specs.Sound.{IsSound};
ghost use Rattle.flat_model.specs.Text.{end_lines, item_line, text_of};
ghost use Rattle.io_edge.specs.Counts.{IsCounted};
ghost use Rattle.io_edge.specs.Written.{WrotePart};
ghost use Rattle.run_log.specs.Printed.{IsPrinted};
ghost use Rattle.run_log.specs.Typed.{IsTyped, IsTypedEnd, IsTypedItem};

use crate::items::{push_end, push_item};
use crate::page::Page;
use flat_model::{Config, End, Log, Logged, ThreadId};
use io_edge::{Sink, WriteErr};

// Prints the line of each item.
fn put_items<K: Sink>(
    config: &Config,
    items: &[Logged],
    page: &mut Page,
    sink: &mut K,
) -> Result<(), WriteErr>
    requires sound { IsSound config.now }
    requires named { list_all (is_named_item config.now) items.now ≡ true }
    ensures printed { IsPrinted (K.written sink.old) (K.written sink.new)
        (K.faults sink.old) (K.faults sink.new)
        (page.old ++ flat_map (item_line config.now) items.now) page.new result }
    ensures typed { OnOk result (AllByRecursion IsTypedItem items.now) }
{
    'items: for item in items {
        page.make_room(sink)?;
        push_item(config, item, page);
    }
    Ok(())
}

// Prints the line of the end of each thread.
fn put_ends<K: Sink>(
    config: &Config,
    ends: &[End],
    page: &mut Page,
    sink: &mut K,
) -> Result<(), WriteErr>
    requires sound { IsSound config.now }
    requires few { length ends.now ≤ 16 }
    ensures printed { IsPrinted (K.written sink.old) (K.written sink.new)
        (K.faults sink.old) (K.faults sink.new)
        (page.old ++ end_lines config.now 0 ends.now) page.new result }
    ensures typed { OnOk result (AllByRecursion IsTypedEnd ends.now) }
{
    'ends: for (t, end) in ends.iter().enumerate() {
        page.make_room(sink)?;
        push_end(config, ThreadId(t as u8), end, page);
    }
    Ok(())
}

/// Writes the text of a log (docs/LOG.md), in few large pieces, and takes no memory.
pub fn write_log<K: Sink>(config: &Config, log: &Log, sink: &mut K) -> Result<(), WriteErr>
    requires sound { IsSound config.now }
    requires named { IsNamed config.now log.now }

    ensures ok { OnOk result (K.written sink.new
        ≡ append_known (K.written sink.old) (text_of config.now log.now)) }

    // So `read_log` of what was appended gives this log, or wants memory.
    ensures typed { OnOk result (IsTyped log.now) }

    ensures err { OnErr result (WrotePart (K.written sink.old) (K.written sink.new)
        (text_of config.now log.now)) }

    // It fails exactly where a write failed, which is counted once.
    ensures faults { IsCounted (IsErr result) (K.faults sink.old) (K.faults sink.new) }
{
    let mut page = Page::new();
    put_items(config, log.items.as_slice(), &mut page, sink)?;
    put_ends(config, log.ends.as_slice(), &mut page, sink)?;
    page.flush(sink)
}
