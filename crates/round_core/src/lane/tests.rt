use super::*;
use std::fmt::Write;
use std::test::Fail;

/// The word's round, `*` where it is claimed, the word's slot, and then each slot: `_` is empty, `t1` is taken by seat 1,
/// and `3r0` is filled with round 3 and read by seat 0.
pub(crate) fn picture(alloc: Global, lane: &Lane) -> Result<String, AllocError> {
    let Word {
        round,
        claimed,
        slot,
    } = lane.word;
    let mark = if claimed { "*" } else { "" };
    let mut text = format!(in alloc; "{round}{mark} {slot}")?;
    for slot in &lane.slots {
        add_slot(&mut text, slot)?;
    }
    Ok(text)
}

fn add_slot(text: &mut String, slot: &Slot) -> Result<(), AllocError> {
    match slot {
        Slot::Empty => text.push_str(" _")?,
        Slot::Taken { seat } => write!(text, " t{seat}")?,
        Slot::Filled { round, readers } => {
            write!(text, " {round}")?;
            for seat in 0..MAX_SEATS {
                if readers.contains(seat) {
                    write!(text, "r{seat}")?;
                }
            }
        }
    }
    Ok(())
}

#[test]
fn the_last_round_is_not_claimed(rt: HostRuntime) -> Result<(), Fail> {
    for (round, may) in [(u32::MAX - 1, true), (u32::MAX, false)] {
        let word = Word {
            round,
            claimed: false,
            slot: 0,
        };
        let lane = Lane {
            word,
            claimer: None,
            slots: Vec::new(rt.alloc()),
            loaded: vec![in rt.alloc(); Some(word); 1]?,
        };
        assert!(rt; lane.has(0, None));
        assert_eq!(rt; lane.can_be_claimed_by(0), may, "at {round}");
    }
    Ok(())
}
