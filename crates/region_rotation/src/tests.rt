ghost use Rattle.std.specs.Prelude.{◌≡◌, ◌+◌, ◌*◌, ◌%◌, ◌≤◌, IfOk};
ghost use Rattle.std.specs.List.{AllByRecursion};
ghost use Rattle.addr_base.specs.Range.{ADDRESS_END};
ghost use Rattle.addr_base.specs.Rights.{read_write};
ghost use Rattle.flat_model.specs.Sound.{AreGrantsApart};
ghost use Rattle.region_packer.specs.Directory.{IsCoverable};

use crate::{Rotator, find};
use flat_model::{BoxId, Item, Kind, OutOfMemory, Pair, Range, Rights, Rotated, Verdict};
use region_packer::Directory;
use sample_board::one_box;
use std::alloc::Global;
use std::test::Fail;

#[test]
fn a_grant_of_seven_blocks_rotates_in_by_three_pairs(rt: HostRuntime) -> Result<(), Fail> {
    let owners = Vec::new(rt.alloc());
    let cfg = one_box(rt.alloc())?;
    let mut rotator = Rotator::new(rt.alloc(), &cfg)?;
    assert!(rt; rotator.enter(BoxId(0)));
    assert!(rt; !rotator.enter(BoxId(0)));
    for (a, expected) in [
        (0x4000_00FC, Some((2, 0x4000_0080, 0x1300_000D))),
        (0x4000_0100, None),
        (0x4000_0020, Some((3, 0x4000_0020, 0x1300_0009))),
        (0x4000_007F, Some((4, 0x4000_0040, 0x1300_000B))),
    ] {
        assert_eq!(rt; rotator.decide(a, Kind::Read), Verdict::Denied, "at {a}");
        let rotated = rotator.recover(a, Kind::Read, &owners);
        let pair = expected.map(|(slot, rbar, rasr)| Rotated {
            slot,
            pair: Pair { rbar, rasr },
        });
        assert_eq!(rt; rotated, pair, "at {a}");
    }
    assert_eq!(rt;
        rotator.decide(0x4000_0020, Kind::Write),
        Verdict::Granted(3)
    );
    assert_eq!(rt;
        rotator.decide(0x2000_0000, Kind::Read),
        Verdict::Granted(1)
    );
    assert_eq!(rt; rotator.decide(0, Kind::Fetch), Verdict::Granted(0));
    rotator.flush();
    assert_eq!(rt; rotator.decide(0x4000_0020, Kind::Read), Verdict::Denied);
    Ok(())
}

#[test]
fn a_switch_hides_the_secret_range_behind_the_last_slot(rt: HostRuntime) -> Result<(), Fail> {
    let cfg = one_box(rt.alloc())?;
    let mut rotator = Rotator::new(rt.alloc(), &cfg)?;
    rotator.enter(BoxId(0));
    let pairs = [
        (0, 0x0600_0027),
        (0x2000_0000, 0x1300_000F),
        (0, 0),
        (0, 0),
        (0, 0),
        (0, 0),
        (0, 0),
        (0x000F_0000, 0x1000_001F),
    ];
    for slot in 0..8 {
        let (rbar, rasr) = pairs[slot];
        assert_eq!(rt; rotator.pair(slot), Pair { rbar, rasr }, "slot {slot}");
    }
    for (a, verdict) in [
        (0x000E_FFFF, Verdict::Granted(0)),
        (0x000F_0000, Verdict::Denied),
        (0x000F_FFFF, Verdict::Denied),
        (0x0010_0000, Verdict::Denied),
    ] {
        assert_eq!(rt; rotator.decide(a, Kind::Read), verdict, "at {a}");
    }
    Ok(())
}

// A grant of one block of 32 bytes.
fn one_block(base: u32) -> Item
    ensures { result ≡ record { range = record { base = base; len = 32 }; rights = read_write } }
{
    Item {
        range: Range { base, len: 0x20 },
        rights: Rights::READ_WRITE,
    }
}

// So many grants of one block, each so far behind the one before.
fn spread(alloc: Global, first: u32, step: u32, n: u32) -> Result<Vec<Item>, OutOfMemory>
    requires base { first % 32 ≡ 0 }
    requires step { (step % 32 ≡ 0) × (32 ≤ step) }
    requires ends { first + n * step ≤ ADDRESS_END }
    ensures covered { IfOk result (λ v. AllByRecursion IsCoverable v.items) }
    ensures apart { IfOk result (λ v. AreGrantsApart v.items) }
{
    let mut grants = Vec::new(alloc);
    for k in 0..n {
        grants.push(one_block(first + k * step))?;
    }
    Ok(grants)
}

#[test]
fn each_of_seven_blocks_is_found_by_three_looks(rt: HostRuntime) -> Result<(), Fail> {
    let grants = spread(rt.alloc(), 0x4000_1000, 0x1000, 7)?;
    let mut dir = Directory::new(rt.alloc(), &grants)?;
    for (a, number) in [
        (0x3FFF_FFFF, None),
        (0x4000_1000, Some(0)),
        (0x4000_101F, Some(0)),
        (0x4000_1020, None),
        (0x4000_3010, Some(2)),
        (0x4000_3020, None),
        (0x4000_7000, Some(6)),
        (0x4000_7020, None),
    ] {
        let before = dir.probes();
        assert_eq!(rt; find(&mut dir, a), number, "at {a}");
        let after = dir.probes();
        assert!(rt; before <= after);
        assert!(rt; after - before <= 3, "at {a}");
    }
    Ok(())
}

#[test]
fn each_of_sixty_four_grants_is_found_by_seven_looks(rt: HostRuntime) -> Result<(), Fail> {
    let grants = spread(rt.alloc(), 0x4000_0000, 0x40, 64)?;
    let mut dir = Directory::new(rt.alloc(), &grants)?;
    for (a, number) in [
        (0x3FFF_FFFF, None),
        (0x4000_0000, Some(0)),
        (0x4000_0020, None),
        (0x4000_0800, Some(32)),
        (0x4000_0FC0, Some(63)),
        (0x4000_0FE0, None),
    ] {
        let before = dir.probes();
        assert_eq!(rt; find(&mut dir, a), number, "at {a}");
        let after = dir.probes();
        assert!(rt; before <= after);
        assert!(rt; after - before <= 7, "at {a}");
    }
    Ok(())
}

#[test]
fn one_block_takes_one_look_and_none_takes_none(rt: HostRuntime) -> Result<(), Fail> {
    let grants = vec![in rt.alloc(); one_block(0x4000_0020)]?;
    let mut dir = Directory::new(rt.alloc(), &grants)?;
    assert_eq!(rt; find(&mut dir, 0x4000_001F), None);
    assert_eq!(rt; find(&mut dir, 0x4000_003F), Some(0));
    assert_eq!(rt; find(&mut dir, 0x4000_0040), None);
    assert_eq!(rt; dir.probes(), 3);
    let mut empty = Directory::new(rt.alloc(), &Vec::new(rt.alloc()))?;
    assert_eq!(rt; find(&mut empty, 0x4000_0000), None);
    assert_eq!(rt; empty.probes(), 0);
    Ok(())
}

#[test]
fn the_longest_grant_has_blocks_that_six_looks_find(rt: HostRuntime) -> Result<(), Fail> {
    let grant = Item {
        range: Range {
            base: 0x20,
            len: 0xDFFF_FFC0,
        },
        rights: Rights::READ,
    };
    let grants = vec![in rt.alloc(); grant]?;
    let mut dir = Directory::new(rt.alloc(), &grants)?;
    assert_eq!(rt; dir.len(), 51);
    for (a, number) in [
        (0x1F, None),
        (0x20, Some(0)),
        (0x7F, Some(1)),
        (0x8000_0000, Some(26)),
        (0xDFFF_FFDF, Some(50)),
        (0xDFFF_FFE0, None),
    ] {
        let before = dir.probes();
        assert_eq!(rt; find(&mut dir, a), number, "at {a}");
        let after = dir.probes();
        assert!(rt; before <= after);
        assert!(rt; after - before <= 6, "at {a}");
    }
    Ok(())
}
