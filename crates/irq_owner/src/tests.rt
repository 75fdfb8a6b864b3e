mod sample;

use sample::TwoBoxes;
use std::test::Fail;

#[test]
fn two_rings_before_a_delivery_are_one(rt: HostRuntime) -> Result<(), Fail> {
    let mut irqs = TwoBoxes::new(rt.alloc())?;
    assert!(rt; irqs.enable(0, 5));
    assert_eq!(rt; irqs.next(0), None);
    irqs.ring(5);
    irqs.ring(5);
    assert_eq!(rt; irqs.next(0), Some(5));
    assert_eq!(rt; irqs.deliver(0), Some(5));
    assert!(rt; irqs.finish(0));
    assert_eq!(rt; irqs.next(0), None);
    Ok(())
}

#[test]
fn a_line_rung_in_its_handler_is_delivered_after_the_return(rt: HostRuntime) -> Result<(), Fail> {
    let mut irqs = TwoBoxes::new(rt.alloc())?;
    assert!(rt; irqs.enable(0, 5));
    irqs.ring(5);
    assert_eq!(rt; irqs.deliver(0), Some(5));
    irqs.ring(5);
    assert_eq!(rt; irqs.deliver(0), None);
    assert!(rt; irqs.finish(0));
    assert_eq!(rt; irqs.deliver(0), Some(5));
    Ok(())
}

#[test]
fn the_lowest_of_the_lines_that_are_due_goes_first(rt: HostRuntime) -> Result<(), Fail> {
    let mut irqs = TwoBoxes::new(rt.alloc())?;
    for (b, line) in [(0, 5), (0, 3), (1, 63), (1, 0)] {
        assert!(rt; b < 2);
        assert!(rt; irqs.enable(b, line), "line {line}");
    }
    irqs.ring(5);
    irqs.ring(3);
    irqs.ring(0);
    irqs.ring(63);
    for (b, line) in [(0, 3), (1, 0), (0, 5), (1, 63)] {
        assert!(rt; b < 2);
        assert_eq!(rt; irqs.deliver(b), Some(line), "to box {b}");
        assert!(rt; irqs.finish(b));
    }
    assert_eq!(rt; irqs.next(0), None);
    assert_eq!(rt; irqs.next(1), None);
    Ok(())
}

#[test]
fn a_latch_stays_while_its_line_is_disabled(rt: HostRuntime) -> Result<(), Fail> {
    let mut irqs = TwoBoxes::new(rt.alloc())?;
    irqs.ring(5);
    assert_eq!(rt; irqs.next(0), None);
    assert!(rt; irqs.enable(0, 5));
    assert_eq!(rt; irqs.next(0), Some(5));
    assert!(rt; irqs.disable(0, 5));
    assert_eq!(rt; irqs.next(0), None);
    assert!(rt; irqs.enable(0, 5));
    assert_eq!(rt; irqs.next(0), Some(5));
    Ok(())
}

#[test]
fn a_box_enables_and_disables_its_own_lines_alone(rt: HostRuntime) -> Result<(), Fail> {
    let mut irqs = TwoBoxes::new(rt.alloc())?;
    for (b, line, own) in [
        (0, 5, true),
        (1, 5, false),
        (1, 63, true),
        (0, 63, false),
        (0, 6, false),
        (1, 64, false),
        (1, 4_294_967_295, false),
    ] {
        assert!(rt; b < 2);
        assert_eq!(rt; irqs.disable(b, line), own, "box {b}, line {line}");
        assert_eq!(rt; irqs.enable(b, line), own, "box {b}, line {line}");
    }
    irqs.ring(5);
    assert!(rt; !irqs.disable(1, 5));
    assert_eq!(rt; irqs.next(0), Some(5));
    assert_eq!(rt; irqs.next(1), None);
    Ok(())
}

#[test]
fn a_box_outside_a_handler_cannot_finish_one(rt: HostRuntime) -> Result<(), Fail> {
    let mut irqs = TwoBoxes::new(rt.alloc())?;
    assert!(rt; !irqs.finish(0));
    assert!(rt; irqs.enable(0, 3));
    irqs.ring(3);
    assert!(rt; !irqs.finish(0));
    assert_eq!(rt; irqs.deliver(0), Some(3));
    assert!(rt; !irqs.finish(1));
    assert!(rt; irqs.finish(0));
    assert!(rt; !irqs.finish(0));
    Ok(())
}

#[test]
fn nothing_is_due_to_a_box_in_its_handler(rt: HostRuntime) -> Result<(), Fail> {
    let mut irqs = TwoBoxes::new(rt.alloc())?;
    assert!(rt; irqs.enable(0, 5));
    assert!(rt; irqs.enable(0, 3));
    assert!(rt; irqs.enable(1, 0));
    irqs.ring(5);
    assert_eq!(rt; irqs.deliver(0), Some(5));
    irqs.ring(3);
    irqs.ring(0);
    assert_eq!(rt; irqs.next(0), None);
    assert_eq!(rt; irqs.next(1), Some(0));
    assert!(rt; irqs.finish(0));
    assert_eq!(rt; irqs.next(0), Some(3));
    Ok(())
}
