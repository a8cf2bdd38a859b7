use crate::{and, low8, low16, mul, or, sar, shl, shr, sign_extend, xor};
use std::test::Fail;
use strided::Si;

fn si(stride: u32, lo: i32, hi: i32) -> Result<Si, Fail> {
    Ok(Si::new(stride, lo, hi).ok_or("no canonical form")?)
}

#[test]
fn gives_the_worked_intervals(rt: HostRuntime) -> Result<(), Fail> {
    let mixed = si(1, -5, 9)?;
    let rows = [
        ("and 15", and(&mixed, &Si::one(15)), si(1, 0, 15)?),
        ("and -16", and(&mixed, &Si::one(-16)), si(16, -16, 0)?),
        ("xor", xor(&si(1, 0, 5)?, &si(1, 0, 8)?), si(1, 0, 15)?),
        ("shl", shl(&si(1, 0, 3)?, 2), si(4, 0, 12)?),
        ("shr", shr(&si(4, 8, 20)?, 2), si(1, 2, 5)?),
        ("sar", sar(&si(1, -3, 5)?, 1), si(1, -2, 2)?),
        ("low8", low8(&si(1, 0, 300)?), si(1, 0, 255)?),
    ];
    for (name, got, want) in rows {
        assert_eq!(rt; got, want, "{name}");
    }
    Ok(())
}

#[test]
fn gives_the_other_cases(rt: HostRuntime) -> Result<(), Fail> {
    let words = si(4, 0, 64)?;
    let rows = [
        ("mul -3", mul(&words, &Si::one(-3)), si(12, -192, 0)?),
        (
            "mul wide",
            mul(&si(1, -2, 3)?, &si(1, -5, 7)?),
            si(1, -15, 21)?,
        ),
        (
            "mul past the top",
            mul(&words, &Si::one(i32::MAX)),
            Si::full(),
        ),
        (
            "mul of numbers",
            mul(&Si::one(65536), &Si::one(65537)),
            Si::one(65536),
        ),
        ("and 12", and(&Si::one(12), &words), si(4, 0, 12)?),
        ("and 0", and(&words, &Si::one(0)), Si::one(0)),
        ("and wide", and(&words, &si(1, 3, 9)?), si(1, 0, 9)?),
        ("or", or(&words, &si(1, 3, 9)?), si(1, 0, 127)?),
        ("or of a negative", or(&words, &Si::one(-1)), Si::full()),
        ("shr of a negative", shr(&si(1, -4, 4)?, 28), si(1, 0, 15)?),
        ("shr of a number", shr(&Si::one(-1), 28), Si::one(15)),
        ("sar of a number", sar(&Si::one(-5), 1), Si::one(-3)),
        ("low16", low16(&si(1, -1, 5)?), si(1, 0, 65535)?),
    ];
    for (name, got, want) in rows {
        assert_eq!(rt; got, want, "{name}");
    }
    Ok(())
}

#[test]
fn extends_the_sign(rt: HostRuntime) -> Result<(), Fail> {
    let bytes = si(1, 200, 210)?;
    assert!(rt; 0 <= bytes.lo() && bytes.hi() < 256);
    assert_eq!(rt; sign_extend(&bytes, 8), si(1, -56, -46)?);
    let both = si(1, 100, 200)?;
    assert!(rt; 0 <= both.lo() && both.hi() < 256);
    assert_eq!(rt; sign_extend(&both, 8), si(1, -128, 127)?);
    Ok(())
}
