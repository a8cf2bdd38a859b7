use crate::Si;
use std::test::Fail;

fn si(stride: u32, lo: i32, hi: i32) -> Result<Si, Fail> {
    Ok(Si::new(stride, lo, hi).ok_or("no canonical form")?)
}

#[test]
fn gives_the_worked_intervals(rt: HostRuntime) -> Result<(), Fail> {
    let minus_forty = si(0, -40, -40)?;
    let rows = [
        ("add", si(4, 0, 36)?.add(&minus_forty), si(4, -40, -4)?),
        (
            "add past the top",
            si(1, 0, i32::MAX)?.add(&si(1, 0, 1)?),
            Si::full(),
        ),
        ("sub", Si::one(i32::MIN).sub(&Si::one(1)), Si::one(i32::MAX)),
        (
            "widen",
            si(4, 0, 4)?.widen(&si(4, 0, 8)?),
            si(4, 0, 2147483644)?,
        ),
        (
            "widen downward",
            si(4, 0, 4)?.widen(&si(4, -8, 4)?),
            si(4, i32::MIN, 4)?,
        ),
        ("neg", si(2, -3, 5)?.neg(), si(2, -5, 3)?),
        (
            "neg of the least",
            Si::one(i32::MIN).neg(),
            Si::one(i32::MIN),
        ),
        ("join", si(4, 0, 8)?.join(&Si::one(6)), si(2, 0, 8)?),
    ];
    for (name, got, want) in rows {
        assert_eq!(rt; got, want, "{name}");
    }
    Ok(())
}

#[test]
fn gives_the_worked_bounds(rt: HostRuntime) -> Result<(), Fail> {
    let words = si(4, 0, 36)?;
    let rows = [
        ("meet", words.meet(&Si::one(6)), None),
        (
            "meet of a member",
            words.meet(&Si::one(8)),
            Some(Si::one(8)),
        ),
        (
            "meet of a range",
            words.meet(&si(1, 5, 20)?),
            Some(si(4, 8, 20)?),
        ),
        ("clip", words.clip(5, 20), Some(si(4, 8, 20)?)),
        ("clip between members", words.clip(5, 7), None),
        ("clip to one member", words.clip(5, 8), Some(Si::one(8))),
    ];
    for (name, got, want) in rows {
        assert_eq!(rt; got, want, "{name}");
    }
    assert_eq!(rt; words.count(), 10);
    assert!(rt; words.has(36) && !words.has(6) && !words.has(40));
    assert!(rt; words.below(&si(2, 0, 40)?) && !words.below(&si(8, 0, 40)?));
    assert_eq!(rt; (words.stride(), words.lo(), words.hi()), (4, 0, 36));
    assert_eq!(rt; Si::new(3, 0, 4), None);
    Ok(())
}
