ghost use Rattle.std.specs.Prelude.{◌≡◌, ◌<◌, ◌+◌};

use crate::{LineSeat, Lines, Rang};
use addr_base::Line;
use std::test::Fail;

// The line that was taken.
fn taken(lines: &Lines, seat: &mut LineSeat) -> Option<u8>
    requires { seat.old.lines ≡ lines.now.id }
    ensures { (seat.new.lines ≡ seat.old.lines) × (seat.new.part.number ≡ seat.old.part.number) }
{
    match lines.take_lowest(seat) {
        Rang::Rung(rung) => Some(rung.line().0),
        Rang::Quiet => None,
        Rang::Missed { line: _, found: _ } => None,
    }
}

#[test]
fn lines_are_taken_from_the_lowest(rt: HostRuntime) -> Result<(), Fail> {
    let Ok((lines, mut seats)) = Lines::new(rt.alloc(), 1) else {
        panic!(rt; "memory")
    };
    let Some(mut seat) = seats.pop() else {
        unreachable!()
    };
    lines.raise(&mut seat, Line(7));
    lines.raise(&mut seat, Line(3));
    let first = taken(&lines, &mut seat);
    let second = taken(&lines, &mut seat);
    let quiet = matches!(lines.take_lowest(&mut seat), Rang::Quiet);
    assert_eq!(rt; (first, second, quiet), (Some(3), Some(7), true));
    Ok(())
}

#[test]
fn a_rung_line_names_the_seat_that_took_it(rt: HostRuntime) -> Result<(), Fail> {
    let Ok((lines, mut seats)) = Lines::new(rt.alloc(), 2) else {
        panic!(rt; "memory")
    };
    let Some(mut second) = seats.pop() else {
        unreachable!()
    };
    let Some(mut first) = seats.pop() else {
        unreachable!()
    };
    lines.raise(&mut first, Line(63));
    let number = match lines.take_lowest(&mut second) {
        Rang::Rung(rung) => rung.number(),
        Rang::Quiet => 90,
        Rang::Missed { line: _, found: _ } => 91,
    };
    assert_eq!(rt; number, 1);
    Ok(())
}

#[test]
fn a_line_that_is_raised_twice_is_taken_once(rt: HostRuntime) -> Result<(), Fail> {
    let Ok((lines, mut seats)) = Lines::new(rt.alloc(), 1) else {
        panic!(rt; "memory")
    };
    let Some(mut seat) = seats.pop() else {
        unreachable!()
    };
    lines.raise(&mut seat, Line(9));
    lines.raise(&mut seat, Line(9));
    let once = taken(&lines, &mut seat);
    let again = taken(&lines, &mut seat);
    assert_eq!(rt; (once, again), (Some(9), None));
    Ok(())
}

#[test]
fn close_answers_the_lines_that_are_pending(rt: HostRuntime) -> Result<(), Fail> {
    let Ok((lines, mut seats)) = Lines::new(rt.alloc(), 2) else {
        panic!(rt; "memory")
    };
    let Some(mut second) = seats.pop() else {
        unreachable!()
    };
    let Some(mut first) = seats.pop() else {
        unreachable!()
    };
    lines.raise(&mut first, Line(0));
    lines.raise(&mut second, Line(7));
    lines.raise(&mut first, Line(63));
    let one = taken(&lines, &mut second);
    seats.push(first)?;
    seats.push(second)?;
    let left = lines.close(seats);
    assert_eq!(rt; (one, left), (Some(0), 0x8000_0000_0000_0080));
    Ok(())
}
