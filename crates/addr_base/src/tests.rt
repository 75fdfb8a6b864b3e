use super::{Range, is_power, round_down, round_up};
use std::test::Fail;

#[test]
fn ranges_end_below_the_private_bus(rt: HostRuntime) {
    for (base, len, good) in [
        (0, 0, false),
        (0, 1, true),
        (0xDFFF_FFE0, 32, true),
        (0xDFFF_FFE0, 33, false),
        (0xFFFF_FFFF, 0xFFFF_FFFF, false),
    ] {
        assert_eq!(rt; Range::new(base, len).is_some(), good, "at {base} of {len}");
    }
}

#[test]
fn touching_ranges_do_not_overlap(rt: HostRuntime) -> Result<(), Fail> {
    let low = Range::new(0x4000_0000, 0x40).ok_or("low")?;
    let high = Range::new(0x4000_0040, 0x20).ok_or("high")?;
    let inner = Range::new(0x4000_003F, 1).ok_or("inner")?;
    assert!(rt; !low.overlaps(&high));
    assert!(rt; low.overlaps(&inner));
    assert!(rt; !low.contains(0x4000_0040));
    assert!(rt; low.contains(0x4000_003F));
    assert!(rt; low.holds(0x4000_003C, 4));
    assert!(rt; !low.holds(0x4000_003D, 4));
    Ok(())
}

#[test]
fn lengths_are_rounded_to_powers(rt: HostRuntime) {
    for (len, up, down) in [
        (0, Some(32), None),
        (31, Some(32), None),
        (32, Some(32), Some(32)),
        (0x44, Some(0x80), Some(0x40)),
        (0x1FF, Some(0x200), Some(0x100)),
        (0x8000_0000, Some(0x8000_0000), Some(0x8000_0000)),
        (0x8000_0001, None, Some(0x8000_0000)),
    ] {
        assert_eq!(rt; round_up(len), up, "up from {len}");
        assert_eq!(rt; round_down(len), down, "down from {len}");
    }
    assert!(rt; is_power(1) && is_power(0x8000_0000));
    assert!(rt; !is_power(0) && !is_power(48));
}
