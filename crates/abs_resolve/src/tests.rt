//! One address that is followed to the caller, and one past a block's end.

use crate::Owners;
use abs_semantics::{Known, Link};
use image_map::RegionId;
use strided::Si;
use vset::{Part, ValueSet};

fn at(region: RegionId, offset: i32) -> ValueSet {
    ValueSet::one(Part {
        region,
        si: Si::one(offset),
    })
}

#[test]
fn arguments_are_the_callers_and_blocks_have_ends(rt: HostRuntime) {
    let links = [Link {
        child: 2,
        aged: false,
        parent: 1,
        off: Si::one(-8),
    }];
    let blocks = [Known {
        region: RegionId::Heap(3),
        number: 12,
    }];
    let owners = Owners::new(&[1, 2], &[], &links, &blocks, 1);
    let argument = owners.resolve(rt.alloc(), 2, &at(RegionId::Frame(2), 4), 4);
    let argument = argument.expect(&rt, "memory");
    assert_eq!(rt; argument.entries.len(), 1);
    assert_eq!(rt; argument.reasons.len(), 0);
    let past = owners.resolve(rt.alloc(), 2, &at(RegionId::Heap(3), 9), 4);
    let past = past.expect(&rt, "memory");
    assert_eq!(rt; past.entries.len(), 0);
    assert_eq!(rt; past.reasons.len(), 1);
}
