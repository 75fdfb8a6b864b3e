ghost use Rattle.std.specs.Prelude.{◌≡◌, ◌+◌, ◌≤◌, ◌∷◌, [], ◌++◌, length, IsErr, OnErr, OnOk};
ghost use Rattle.std.specs.Fmt.{decimal};
ghost use Rattle.std.specs.Io.KnownBytes.{append_known};
ghost use Rattle.io_edge.specs.Counts.{IsCounted};
ghost use Rattle.io_edge.specs.Written.{WrotePart};
ghost use Rattle.run_log.specs.Spaced.{spaced};
ghost use Rattle.workload.specs.Tally as tally;

use crate::counts::{
    denied, faults, flushes, granted, idles, posted, rings, rotations, starts, switches, turns,
};
use flat_model::{Log, Logged};
use io_edge::{Sink, WriteErr};
use run_log::Page;

// Prints a number in decimal.
#[tactic(auto, using(std::proofs::lemmas::Fmt::decimal_digit, crate::proofs::Decimals::decimal_ends, crate::proofs::Decimals::decimal_longer))]
fn push_number(n: u64, page: &mut Page)
    requires { length page.old + length (decimal n) ≤ 4096 }
    ensures text { page.new ≡ page.old ++ decimal n }
    ensures long { length page.new ≡ length page.old + length (decimal n) }
{
    if n < 10 {
        page.push_byte(b'0' + n as u8);
    } else {
        push_number(n / 10, page);
        page.push_byte(b'0' + (n % 10) as u8);
    }
}

// Prints what is counted and its count, each with a space before it.
#[tactic(auto, using(crate::proofs::Decimals::decimal_short))]
fn push_count(name: &[u8], count: usize, page: &mut Page)
    requires { length page.old + length name.now + 22 ≤ 4096 }
    ensures text { page.new ≡ page.old ++ spaced (name.now ∷ decimal count ∷ []) }
    ensures long { length page.new ≤ length page.old + length name.now + 22 }
{
    page.push_byte(b' ');
    page.push_bytes(name);
    page.push_byte(b' ');
    push_number(count as u64, page);
}

// Prints the counts of the unit's lines, and of all items.
fn push_unit_counts(items: &[Logged], page: &mut Page)
    requires { length page.old + 180 ≤ 4096 }
    ensures text { page.new ≡ page.old ++ spaced (tally.unit_counts items.now) }
    ensures long { length page.new ≤ length page.old + 180 }
{
    push_count(b"items", items.len(), page);
    push_count(b"switches", switches(items), page);
    push_count(b"rotations", rotations(items), page);
    push_count(b"flushes", flushes(items), page);
    push_count(b"granted", granted(items), page);
    push_count(b"denied", denied(items), page);
}

// Prints the counts of events.
fn push_event_counts(items: &[Logged], page: &mut Page)
    requires { length page.old + 180 ≤ 4096 }
    ensures text { page.new ≡ page.old ++ spaced (tally.event_counts items.now) }
    ensures long { length page.new ≤ length page.old + 180 }
{
    push_count(b"turns", turns(items), page);
    push_count(b"starts", starts(items), page);
    push_count(b"idles", idles(items), page);
    push_count(b"rings", rings(items), page);
    push_count(b"posted", posted(items), page);
    push_count(b"faults", faults(items), page);
}

// Prints the line of the counts.
fn push_tally(n: u32, items: &[Logged], page: &mut Page)
    requires { length page.old + 400 ≤ 4096 }
    ensures { page.new ≡ page.old ++ tally.counts_line n items.now }
{
    page.push_bytes(b"tally ");
    page.push_decimal(n);
    push_unit_counts(items, page);
    push_event_counts(items, page);
    page.push_byte(b'\n');
}

/// Writes the line of the counts of a log (docs/MANUAL.md) with the number of the input that was
/// run, in one piece, and takes no memory.
pub fn write_tally<K: Sink>(n: u32, log: &Log, sink: &mut K) -> Result<(), WriteErr>
    ensures ok { OnOk result (K.written sink.new
        ≡ append_known (K.written sink.old) (tally.tally_line n log.now)) }
    ensures err { OnErr result (WrotePart (K.written sink.old) (K.written sink.new)
        (tally.tally_line n log.now)) }

    // It fails exactly where a write failed, which is counted once.
    ensures faults { IsCounted (IsErr result) (K.faults sink.old) (K.faults sink.new) }
{
    let mut page = Page::new();
    push_tally(n, log.items.as_slice(), &mut page);
    page.flush(sink)
}
