use crate::{Directory, cover, group};
use arrayvec::ArrayVec;
use flat_model::{Item, Pair, Range, Rights};
use std::test::Fail;

#[test]
fn seven_blocks_of_32_bytes_are_three_regions(rt: HostRuntime) {
    let mut pairs = ArrayVec::new();
    let range = Range {
        base: 0x4000_0020,
        len: 0xE0,
    };
    cover(range, Rights::READ_WRITE, &mut pairs);
    let expected = [
        (0x4000_0020, 0x1300_0009),
        (0x4000_0040, 0x1300_000B),
        (0x4000_0080, 0x1300_000D),
    ];
    assert_eq!(rt; pairs.len(), 3);
    for (pair, (rbar, rasr)) in pairs.as_slice().iter().zip(expected.iter()) {
        assert_eq!(rt;
            *pair,
            Pair {
                rbar: *rbar,
                rasr: *rasr
            }
        );
    }
}

#[test]
fn each_set_of_rights_has_its_attributes(rt: HostRuntime) {
    for (rights, rasr) in [
        (Rights::READ, 0x1600_0009),
        (Rights::READ_WRITE, 0x1300_0009),
        (Rights::READ_EXECUTE, 0x0600_0009),
        (Rights::ALL, 0x0300_0009),
    ] {
        let mut pairs = ArrayVec::new();
        let range = Range {
            base: 0x4000_0020,
            len: 0x20,
        };
        cover(range, rights, &mut pairs);
        assert_eq!(rt; pairs.len(), 1);
        assert_eq!(rt; pairs[0].rasr, rasr);
    }
}

#[test]
fn the_longest_range_has_few_regions(rt: HostRuntime) {
    let mut pairs = ArrayVec::new();
    let range = Range {
        base: 0x20,
        len: 0xDFFF_FFC0,
    };
    cover(range, Rights::READ, &mut pairs);
    // Blocks of 2^5 to 2^30 rise to 2^31, one of 2^30 follows, and blocks of 2^28 to 2^5 fall.
    assert_eq!(rt; pairs.len(), 26 + 1 + 24);
}

#[test]
fn a_group_disables_the_pages_without_a_bit(rt: HostRuntime) {
    let two = Pair {
        rbar: 0x2000_8000,
        rasr: 0x1300_FA19,
    };
    assert_eq!(rt; group(0x2000_8000, 1024, 0x05), Some(two));
    assert_eq!(rt; group(0x2000_8000, 1024, 0), None);
}

#[test]
fn a_directory_has_the_blocks_by_their_addresses(rt: HostRuntime) -> Result<(), Fail> {
    let high = Item {
        range: Range {
            base: 0x4000_0020,
            len: 0xE0,
        },
        rights: Rights::READ_WRITE,
    };
    let lowest = Item {
        range: Range {
            base: 0x2000_0400,
            len: 0x20,
        },
        rights: Rights::READ,
    };
    let grants = vec![in rt.alloc(); high, lowest]?;
    let mut directory = Directory::new(rt.alloc(), &grants)?;
    assert_eq!(rt; directory.len(), 4);
    assert_eq!(rt; directory.probes(), 0);
    let expected = [
        (0x2000_0400, 0x20, 0x1600_0009),
        (0x4000_0020, 0x20, 0x1300_0009),
        (0x4000_0040, 0x40, 0x1300_000B),
        (0x4000_0080, 0x80, 0x1300_000D),
    ];
    for i in 0..4 {
        assert!(rt; i < directory.len());
        let block = directory.probe(i);
        let (base, len, rasr) = expected[i as usize];
        assert_eq!(rt; block.part, Range { base, len }, "block {i}");
        assert_eq!(rt; block.pair, Pair { rbar: base, rasr }, "block {i}");
    }
    assert_eq!(rt; directory.probes(), 4);
    Ok(())
}

#[test]
fn a_directory_of_no_grants_has_no_blocks(rt: HostRuntime) -> Result<(), Fail> {
    let directory = Directory::new(rt.alloc(), &Vec::new(rt.alloc()))?;
    assert_eq!(rt; directory.len(), 0);
    Ok(())
}
