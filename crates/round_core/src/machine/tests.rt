use super::*;
use crate::lane::tests::picture;
use std::process::Abort;
use std::test::Fail;

/// The event of a word: `L` load, `C` claim, `G` give up, `T` take, `F` put, `P` publish, `E` enter, `Q` leave, and then
/// a digit each for the lane, the seat, the slot and the round, as far as the event has them.
fn event(word: &str) -> Event {
    let bytes = word.as_bytes();
    let lane = digit(bytes, 1);
    let seat = digit(bytes, 2);
    let slot = digit(bytes, 3);
    match bytes.first() {
        Some(b'L') => Event::Load { lane, seat },
        Some(b'C') => Event::Claim { lane, seat },
        Some(b'G') => Event::GiveUp { lane, seat },
        Some(b'T') => Event::Take { lane, seat, slot },
        Some(b'P') => Event::Publish { lane, seat, slot },
        Some(b'E') => Event::Enter { lane, seat, slot },
        Some(b'Q') => Event::Leave { lane, seat, slot },
        _ => Event::Put {
            lane,
            seat,
            slot,
            round: digit(bytes, 4),
        },
    }
}

fn digit(bytes: &[u8], place: usize) -> u32 {
    match bytes.get(place) {
        Some(byte) => u32::from(byte.wrapping_sub(b'0')),
        None => 0,
    }
}

/// Of two lanes and two seats: the answers to the events, `y` or `n`, and what lane 0 is left as.
fn check(
    rt: &impl Abort,
    alloc: Global,
    events: &str,
    answers: &str,
    left: &str,
) -> Result<(), Fail> {
    let mut core = Core::make(alloc, 2, 2)?;
    let mut given = String::new(alloc);
    for word in events.split_whitespace() {
        given.push(if core.step(&event(word)) { 'y' } else { 'n' })?;
    }
    assert_eq!(rt; given.as_str(), answers, "{events}");
    assert_eq!(rt; core.lanes.len(), 2);
    assert_eq!(rt; picture(alloc, &core.lanes[0])?.as_str(), left, "{events}");
    Ok(())
}

#[test]
fn words_and_claims(rt: HostRuntime) -> Result<(), Fail> {
    for (events, answers, left) in [
        ("", "", "0 0 0 _ _ _"),
        // Nothing exists beyond the last lane, seat and slot.
        ("L01 L02", "yn", "0 0 0 _ _ _"),
        ("L11 L21", "yn", "0 0 0 _ _ _"),
        ("L00 C00 T004 T003", "yyny", "0* 0 0 _ _ t0"),
        // A claim wants the word loaded by that seat, and free.
        ("C00 L01 C00", "nyn", "0 0 0 _ _ _"),
        ("L00 C00 C00 L01 C01", "yynyn", "0* 0 0 _ _ _"),
        // A word that was claimed and given up is again the word that was loaded.
        ("L00 L01 C01 G00 G01 C00", "yyynyy", "0* 0 0 _ _ _"),
        // A claimer gives up neither with a slot taken, nor with the next round in a slot.
        ("L00 C00 T001 G00 F0011 G00", "yyynyn", "0* 0 0 1 _ _"),
    ] {
        check(&rt, rt.alloc(), events, answers, left)?;
    }
    Ok(())
}

#[test]
fn slots_taken_and_filled(rt: HostRuntime) -> Result<(), Fail> {
    for (events, answers, left) in [
        // Only the claimer takes, one slot, and not the word's.
        (
            "T001 L00 C00 T011 T000 T001 T002",
            "nyynnyn",
            "0* 0 0 t0 _ _",
        ),
        // The next round goes into the taken slot alone, once.
        ("L00 C00 T001 F0111 F0021", "yyynn", "0* 0 0 t0 _ _"),
        (
            "L00 C00 T001 F0010 F0012 F0011 F0011",
            "yyynnyn",
            "0* 0 0 1 _ _",
        ),
        // With the next round in a slot no other is taken. The claimer publishes that slot alone.
        (
            "L00 C00 P000 T001 P001 F0011 T002",
            "yynynyn",
            "0* 0 0 1 _ _",
        ),
        (
            "L00 C00 T001 F0011 P002 P011 P001 P001",
            "yyyynnyn",
            "1 1 0 1 _ _",
        ),
        // The publisher has loaded the new word, and another seat's loaded word is old.
        (
            "L00 L01 C00 T001 F0011 P001 C01 C00",
            "yyyyyyny",
            "1* 1 0 1 _ _",
        ),
        (
            "L00 C00 T001 F0011 P001 C00 T000 F0002 P000",
            "yyyyyyyyy",
            "2 0 2 1 _ _",
        ),
    ] {
        check(&rt, rt.alloc(), events, answers, left)?;
    }
    Ok(())
}

#[test]
fn slots_read(rt: HostRuntime) -> Result<(), Fail> {
    for (events, answers, left) in [
        // A seat enters the slot of the word that it loaded, once, and leaves the slot that it reads.
        ("E000 L00 E001 E000 E000", "nynyn", "0 0 0r0 _ _ _"),
        (
            "L00 L01 E000 E010 Q001 Q000 Q000",
            "yyyynyn",
            "0 0 0r1 _ _ _",
        ),
        // A seat reads one slot of all lanes.
        ("L10 E100 L00 E000 L01 E010", "yyynyy", "0 0 0r1 _ _ _"),
        // A slot that is read is not taken.
        (
            "L00 E000 L01 C01 T011 F0111 P011 C01 T010",
            "yyyyyyyyn",
            "1* 1 0r0 1 _ _",
        ),
        (
            "L00 E000 L01 C01 T011 F0111 P011 C01 Q000 T010",
            "yyyyyyyyyy",
            "1* 1 t1 1 _ _",
        ),
        // An old word names a slot that may be taken by now, or hold a later round.
        (
            "L00 L01 C01 T011 F0111 P011 C01 T010 E000",
            "yyyyyyyyn",
            "1* 1 t1 1 _ _",
        ),
        (
            "L00 L01 C01 T011 F0111 P011 C01 T010 F0102 E000",
            "yyyyyyyyyy",
            "1* 1 2r0 1 _ _",
        ),
    ] {
        check(&rt, rt.alloc(), events, answers, left)?;
    }
    Ok(())
}

#[test]
fn largest_core(rt: HostRuntime) -> Result<(), Fail> {
    let mut core = Core::make(rt.alloc(), MAX_LANES, MAX_SEATS)?;
    let (lane, seat) = (3, 11);
    for (event, want) in [
        (Event::Load { lane, seat }, true),
        (Event::Load { lane: 4, seat }, false),
        (Event::Load { lane, seat: 12 }, false),
        (
            Event::Enter {
                lane,
                seat,
                slot: 0,
            },
            true,
        ),
        (Event::Claim { lane, seat }, true),
        (
            Event::Take {
                lane,
                seat,
                slot: 14,
            },
            false,
        ),
        (
            Event::Take {
                lane,
                seat,
                slot: 13,
            },
            true,
        ),
    ] {
        assert_eq!(rt; core.step(&event), want);
    }
    Ok(())
}
