//! The word of pending lines: bit L is set where line L is pending.
ghost use Rattle.std.specs.Prelude.{◌≡◌, ℕ, ◌<◌, take, drop};

use crate::bits::{has_bit, lowest, mask};
use crate::seen::Seen;
use addr_base::{Line, OutOfMemory};
use atomic_table::{Join, Play, Seat, Split, Table, TableRule};
use std::alloc::Global;
use std::collections::LinkedList;
use std::marker::Model;

/// What a seat at the word knows. No value of it is made.
pub struct LinePart {
    /// The seat's number.
    pub number: u32,
    /// Each line that it raised, with the word that its fetch found.
    pub raises: LinkedList<(u64, u64)>,
    /// The lines that it took, in order.
    pub taken: LinkedList<u64>,
    /// Whether it raised a line since its last load that gave 0.
    pub is_open: bool,
    /// What it read of the word.
    pub word: Seen,
}

/// How many seats the word has.
#[derive(Drop)]
pub struct LinesKey {
    seats: u32,
}

/// The rule of the word.
pub struct LinesKept;

impl TableRule<(), LinkedList<LinePart>, LinesKey> for LinesKept {
    ghost use Rattle.shared_views.specs.Views.{made_from};
    ghost use Rattle.atomic_pool.specs.LinesRule.{LinesRule, fresh_part};

    ghost holds = { λ key. LinesRule key.seats };

    ghost first = { λ key. made_from fresh_part 0 key.seats };
}

/// The word of pending lines, which threads share.
#[derive(Drop)]
pub struct Lines {
    table: Table<(), LinkedList<LinePart>, LinesKey, LinesKept, Global>,
}

impl Model for Lines {
    ghost use Rattle.atomic_pool.specs.LinesRule.{LinesValue, IsLines};

    ghost Value = { LinesValue };

    ghost view = { λ a. record { id = a.table.shared.table_id; count = a.table.shared.key.seats } };

    ghost invariant = { λ a. IsLines a.table.shared.table_id a.table.shared.key.seats };
}

/// The right to raise and to take lines, of one thread.
#[derive(Drop)]
pub struct LineSeat {
    seat: Seat<(), LinkedList<LinePart>>,
    number: u32,
}

impl Model for LineSeat {
    ghost use Rattle.atomic_pool.specs.LinesRule.{LineSeatValue, IsLineSeat, only_part};

    ghost Value = { LineSeatValue };

    ghost view = { λ a. record { lines = a.seat.table_id; part = only_part a.seat.me.0 } };

    ghost invariant = { λ a. IsLineSeat a.number a.seat.me };
}

/// A pending line that a seat took. It is made by a take alone.
#[derive(Drop)]
pub struct Rung {
    line: Line,
    number: u32,
}

impl Model for Rung {
    ghost use Rattle.atomic_pool.specs.LinesRule.{RungValue};

    ghost Value = { RungValue };

    ghost view = { λ a. record { line = a.line; number = a.number } };
}

/// What a take of the lowest pending line found.
#[derive(Drop)]
pub enum Rang {
    /// The line, which is pending no more.
    Rung(Rung),
    /// No line was pending.
    Quiet,
    /// Another seat took the line in between; `found` is the word that was found then.
    Missed { line: Line, found: u64 },
}

pub(crate) struct Look;

impl Play<(), LinkedList<LinePart>> for Look {
    ghost use Rattle.atomic_pool.specs.LinesPlays.{looks};

    ghost then = { looks };
}

pub(crate) struct Raise;

impl Play<(), LinkedList<LinePart>> for Raise {
    ghost use Rattle.atomic_pool.specs.LinesPlays.{raises};

    ghost then = { raises };
}

pub(crate) struct Take;

impl Play<(), LinkedList<LinePart>> for Take {
    ghost use Rattle.atomic_pool.specs.LinesPlays.{takes};

    ghost then = { takes };
}

pub(crate) struct OnePart;

impl Split<LinkedList<LinePart>> for OnePart {
    ghost left = { λ v. drop 1 v };

    ghost right = { λ v. take 1 v };
}

pub(crate) struct Gather;

impl Join<LinkedList<LinePart>> for Gather {
    ghost use Rattle.std.specs.Prelude.{[], ◌++◌};

    ghost both = { λ v w. w ++ v };

    ghost spent = { [] };
}

impl Rung {
    /// The line.
    pub fn line(&self) -> Line
        ensures { result ≡ self.now.line }
    {
        self.line
    }

    /// The number of the seat that took it.
    pub fn number(&self) -> u32
        ensures { result ≡ self.now.number }
    {
        self.number
    }
}

impl Lines {
    ghost use Rattle.std.specs.Prelude.{◌≡◌, ◌<◌, ◌≤◌, IfOk};
    ghost use Rattle.atomic_pool.specs.LinesTold.{HasRaised, HasRung, AreFresh, AreAll, IsLeft};

    /// A word on which no line is pending, with 1 to 256 seats; seat k has number k.
    pub fn new(alloc: Global, seats: u32) -> Result<(Lines, Vec<LineSeat>), OutOfMemory>
        requires some { 1 ≤ seats }
        requires few { seats ≤ 256 }
        ensures ok { IfOk result (λ made. AreFresh seats made.0 made.1.items) }
    {
        let mut made = Vec::with_capacity(alloc, seats as usize)?;
        let (table, mut rest) = Table::of_words(alloc, &[0], &LinesKey { seats })?;
        for number in 0..seats {
            let seat = table.shared.split_seat::<OnePart>(&mut rest);
            made.push_reserved(LineSeat { seat, number });
        }
        Ok((Lines { table }, made))
    }

    /// Makes the line pending.
    pub fn raise(&self, seat: &mut LineSeat, line: Line)
        requires of { seat.old.lines ≡ self.now.id }
        requires line { line.0 < 64 }
        ensures { HasRaised line.0 seat.old seat.new }
    {
        let mask = mask(u32::from(line.0));
        self.table.shared.fetch_or::<Raise>(&mut seat.seat, 0, mask);
    }

    /// Takes the lowest pending line.
    pub fn take_lowest(&self, seat: &mut LineSeat) -> Rang
        requires of { seat.old.lines ≡ self.now.id }
        ensures { HasRung seat.old result seat.new }
    {
        let seen = self.table.shared.load::<Look>(&mut seat.seat, 0);
        if seen == 0 {
            return Rang::Quiet;
        }
        let bit = lowest(seen);
        let line = Line(bit as u8);
        let rest = !mask(bit);
        let found = self.table.shared.fetch_and::<Take>(&mut seat.seat, 0, rest);
        if has_bit(found, bit) {
            Rang::Rung(Rung {
                line,
                number: seat.number,
            })
        } else {
            Rang::Missed { line, found }
        }
    }

    /// The bits of the lines that are still pending, when all seats are given back.
    pub fn close(self, mut seats: Vec<LineSeat>) -> u64
        requires all { AreAll self seats.items }
        ensures { IsLeft result seats.items }
    {
        let Lines { table } = self;
        let Some(last) = seats.pop() else {
            unreachable!()
        };
        let LineSeat {
            seat: mut all,
            number: _,
        } = last;
        while let Some(next) = seats.pop() {
            let LineSeat { seat, number: _ } = next;
            table.shared.join_seat::<Gather>(&mut all, seat);
        }
        let closed = table.close_with(all);
        let word = closed.word(0);
        closed.free();
        word
    }
}
