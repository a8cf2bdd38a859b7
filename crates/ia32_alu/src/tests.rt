//! Worked results: each operation at each width, and the rows that are easy to get wrong.

use crate::{alu, divide, holds, mul, shift};
use ia32_semantics::{FlagOut, Flags, FlagsOut};
use ia32_types::{Cond, Op};

/// The weight of a flag among those that are set, undefined and kept.
fn told(flag: FlagOut, weight: u8) -> [u8; 3] {
    match flag {
        FlagOut::Set(false) => [0, 0, 0],
        FlagOut::Set(true) => [weight, 0, 0],
        FlagOut::Undefined => [0, weight, 0],
        FlagOut::Kept => [0, 0, weight],
    }
}

/// The flags that are set, those that are undefined and those that are kept: bits 0 to 4 are CF, PF, ZF, SF and OF.
fn bits(flags: &FlagsOut) -> [u8; 3] {
    let [a, b, c, d, e] = [
        told(flags.cf, 1),
        told(flags.pf, 2),
        told(flags.zf, 4),
        told(flags.sf, 8),
        told(flags.of, 16),
    ];
    [
        a[0] | b[0] | c[0] | d[0] | e[0],
        a[1] | b[1] | c[1] | d[1] | e[1],
        a[2] | b[2] | c[2] | d[2] | e[2],
    ]
}

fn row(outcome: (u32, FlagsOut)) -> (u32, [u8; 3]) {
    (outcome.0, bits(&outcome.1))
}

/// An operation at 8, 16 and 32 bits.
fn computed(op: &Op) -> [(u32, [u8; 3]); 3] {
    [
        row(alu::<8>(op, 0x9C, 0x65, true)),
        row(alu::<16>(op, 0x9C3F, 0x6581, true)),
        row(alu::<32>(op, 0x9C3F_0001, 0x6581_0203, true)),
    ]
}

/// A shift at 8, 16 and 32 bits.
fn shifted(op: &Op, count: u32) -> [(u32, [u8; 3]); 3] {
    [
        row(shift::<8>(op, 0x9C, count)),
        row(shift::<16>(op, 0x9C3F, count)),
        row(shift::<32>(op, 0x9C3F_0001, count)),
    ]
}

#[test]
fn operations(rt: HostRuntime) {
    let cases = [
        (
            computed(&Op::Add),
            [(0x1, [1, 0, 0]), (0x1C0, [3, 0, 0]), (0x1C00204, [1, 0, 0])],
        ),
        (
            computed(&Op::Or),
            [
                (0xFD, [8, 0, 0]),
                (0xFDBF, [8, 0, 0]),
                (0xFDBF0203, [10, 0, 0]),
            ],
        ),
        (
            computed(&Op::Adc),
            [(0x2, [1, 0, 0]), (0x1C1, [1, 0, 0]), (0x1C00205, [3, 0, 0])],
        ),
        (
            computed(&Op::Sbb),
            [
                (0x36, [18, 0, 0]),
                (0x36BD, [18, 0, 0]),
                (0x36BDFDFD, [16, 0, 0]),
            ],
        ),
        (
            computed(&Op::And),
            [(0x4, [0, 0, 0]), (0x401, [0, 0, 0]), (0x4010001, [0, 0, 0])],
        ),
        (
            computed(&Op::Sub),
            [
                (0x37, [16, 0, 0]),
                (0x36BE, [18, 0, 0]),
                (0x36BDFDFE, [16, 0, 0]),
            ],
        ),
        (
            computed(&Op::Xor),
            [
                (0xF9, [10, 0, 0]),
                (0xF9BE, [10, 0, 0]),
                (0xF9BE0202, [8, 0, 0]),
            ],
        ),
        (
            computed(&Op::Cmp),
            [
                (0x37, [16, 0, 0]),
                (0x36BE, [18, 0, 0]),
                (0x36BDFDFE, [16, 0, 0]),
            ],
        ),
        (
            computed(&Op::Test),
            [(0x4, [0, 0, 0]), (0x401, [0, 0, 0]), (0x4010001, [0, 0, 0])],
        ),
        (
            computed(&Op::Inc),
            [
                (0x9D, [8, 0, 1]),
                (0x9C40, [8, 0, 1]),
                (0x9C3F0002, [8, 0, 1]),
            ],
        ),
        (
            computed(&Op::Dec),
            [
                (0x9B, [8, 0, 1]),
                (0x9C3E, [8, 0, 1]),
                (0x9C3F0000, [10, 0, 1]),
            ],
        ),
        (
            computed(&Op::Not),
            [
                (0x63, [0, 0, 31]),
                (0x63C0, [0, 0, 31]),
                (0x63C0FFFE, [0, 0, 31]),
            ],
        ),
        (
            computed(&Op::Neg),
            [
                (0x64, [1, 0, 0]),
                (0x63C1, [1, 0, 0]),
                (0x63C0FFFF, [3, 0, 0]),
            ],
        ),
    ];
    for (found, wanted) in cases.iter() {
        assert_eq!(rt; *found, *wanted);
    }
}

#[test]
fn shifts(rt: HostRuntime) {
    let cases = [
        (
            shifted(&Op::Shl, 1),
            [
                (0x38, [17, 0, 0]),
                (0x387E, [19, 0, 0]),
                (0x387E0002, [17, 0, 0]),
            ],
        ),
        (
            shifted(&Op::Shl, 11),
            [
                (0x0, [6, 17, 0]),
                (0xF800, [11, 16, 0]),
                (0xF8000800, [11, 16, 0]),
            ],
        ),
        (
            shifted(&Op::Shl, 32),
            [
                (0x9C, [0, 0, 31]),
                (0x9C3F, [0, 0, 31]),
                (0x9C3F0001, [0, 0, 31]),
            ],
        ),
        (
            shifted(&Op::Shr, 1),
            [
                (0x4E, [18, 0, 0]),
                (0x4E1F, [17, 0, 0]),
                (0x4E1F8000, [19, 0, 0]),
            ],
        ),
        (
            shifted(&Op::Shr, 11),
            [
                (0x0, [6, 17, 0]),
                (0x13, [1, 16, 0]),
                (0x1387E0, [0, 16, 0]),
            ],
        ),
        (
            shifted(&Op::Shr, 32),
            [
                (0x9C, [0, 0, 31]),
                (0x9C3F, [0, 0, 31]),
                (0x9C3F0001, [0, 0, 31]),
            ],
        ),
        (
            shifted(&Op::Sar, 1),
            [
                (0xCE, [8, 0, 0]),
                (0xCE1F, [9, 0, 0]),
                (0xCE1F8000, [11, 0, 0]),
            ],
        ),
        (
            shifted(&Op::Sar, 11),
            [
                (0xFF, [11, 16, 0]),
                (0xFFF3, [11, 16, 0]),
                (0xFFF387E0, [8, 16, 0]),
            ],
        ),
        (
            shifted(&Op::Sar, 32),
            [
                (0x9C, [0, 0, 31]),
                (0x9C3F, [0, 0, 31]),
                (0x9C3F0001, [0, 0, 31]),
            ],
        ),
        (
            shifted(&Op::Rol, 1),
            [
                (0x39, [17, 0, 14]),
                (0x387F, [17, 0, 14]),
                (0x387E0003, [17, 0, 14]),
            ],
        ),
        (
            shifted(&Op::Rol, 11),
            [
                (0xE4, [0, 16, 14]),
                (0xFCE1, [1, 16, 14]),
                (0xF8000CE1, [1, 16, 14]),
            ],
        ),
        (
            shifted(&Op::Rol, 32),
            [
                (0x9C, [0, 0, 31]),
                (0x9C3F, [0, 0, 31]),
                (0x9C3F0001, [0, 0, 31]),
            ],
        ),
        (
            shifted(&Op::Ror, 1),
            [
                (0x4E, [16, 0, 14]),
                (0xCE1F, [1, 0, 14]),
                (0xCE1F8000, [1, 0, 14]),
            ],
        ),
        (
            shifted(&Op::Ror, 11),
            [
                (0x93, [1, 16, 14]),
                (0x87F3, [1, 16, 14]),
                (0x3387E0, [0, 16, 14]),
            ],
        ),
        (
            shifted(&Op::Ror, 32),
            [
                (0x9C, [0, 0, 31]),
                (0x9C3F, [0, 0, 31]),
                (0x9C3F0001, [0, 0, 31]),
            ],
        ),
    ];
    for (found, wanted) in cases.iter() {
        assert_eq!(rt; *found, *wanted);
    }
}

#[test]
fn rows(rt: HostRuntime) {
    assert_eq!(rt; row(alu::<8>(&Op::Add, 0xFF, 1, false)), (0, [7, 0, 0]));
    assert_eq!(rt;
        row(alu::<32>(&Op::Sub, 0x8000_0000, 1, false)),
        (0x7FFF_FFFF, [18, 0, 0])
    );
    assert_eq!(rt; row(shift::<8>(&Op::Shl, 0x81, 1)), (2, [17, 0, 0]));
    let (low, high, flags) = mul::<8>(true, 0x80, 2);
    assert_eq!(rt; (low, high, bits(&flags)), (0, 0xFF, [17, 14, 0]));
    let (low, high, flags) = mul::<32>(false, 0xFFFF_FFFF, 0xFFFF_FFFF);
    assert_eq!(rt; (low, high, bits(&flags)), (1, 0xFFFF_FFFE, [17, 14, 0]));
    assert_eq!(rt; divide::<8>(true, 0xFF, 0xF9, 2), Some((0xFD, 0xFF)));
    assert_eq!(rt; divide::<16>(true, 0, 0x8000, 0xFFFF), Some((0x8000, 0)));
    assert_eq!(rt; divide::<16>(false, 1, 0, 1), None);
    assert_eq!(rt; divide::<32>(false, 1, 0, 3), Some((0x5555_5555, 1)));
    assert_eq!(rt; divide::<32>(true, 0, 5, 0), None);
    let flags = Flags {
        cf: false,
        pf: true,
        zf: false,
        sf: true,
        of: false,
    };
    assert!(rt;
        holds(Cond::new(12), &flags)
            && !holds(Cond::new(13), &flags)
            && holds(Cond::new(14), &flags)
    );
    assert!(rt; holds(Cond::new(7), &flags) && !holds(Cond::new(11), &flags));
}
