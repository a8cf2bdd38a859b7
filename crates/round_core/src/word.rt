//! A lane's word, and the 64 bits in which an atomic cell keeps it.

ghost use Rattle.std.specs.Prelude.{◌≡◌, ◌^◌, ◌<◌};
ghost use Rattle.round_core.specs.Word.{packed, unpacked};

/// What a packed word counts a round as: the round has the high 32 bits.
const ROUND: u64 = 4_294_967_296;

/// What a packed word counts the mark as: the mark is bit 31, and the slot has the bits below.
const CLAIMED: u64 = 2_147_483_648;

/// A lane's word: the number of its newest round, whether a seat is making the next one, and the slot that holds the
/// newest round.
#[derive(Clone, Copy, Debug, PartialEq, Eq)]
pub struct Word {
    pub round: u32,
    pub claimed: bool,
    pub slot: u32,
}

impl Word {
    /// The word in 64 bits: the round in the high 32, the mark in bit 31, the slot in the low 31.
    pub fn pack(self) -> u64
        requires { self.slot < 2 ^ 31 }
        ensures bits { result ≡ packed self }
        ensures back { unpacked result ≡ self }
    {
        let mark = if self.claimed { CLAIMED } else { 0 };
        u64::from(self.round) * ROUND + mark + u64::from(self.slot)
    }

    /// The word that these 64 bits are.
    pub fn unpack(bits: u64) -> Self
        ensures word { result ≡ unpacked bits }
        ensures back { packed result ≡ bits }
        ensures slot { result.slot < 2 ^ 31 }
    {
        Word {
            round: (bits / ROUND) as u32,
            claimed: bits / CLAIMED % 2 == 1,
            slot: (bits % CLAIMED) as u32,
        }
    }
}

#[cfg(test)]
mod tests {
    use super::*;

    #[test]
    fn words_in_bits(rt: HostRuntime) {
        for (round, claimed, slot, bits) in [
            (0, false, 0, 0),
            (0, false, 1, 1),
            (0, false, 0x7FFF_FFFF, 0x7FFF_FFFF),
            (0, true, 0, 0x8000_0000),
            (1, false, 0, 0x1_0000_0000),
            (0x1234_5678, true, 0x0000_000D, 0x1234_5678_8000_000D),
            (u32::MAX, true, 0x7FFF_FFFF, u64::MAX),
        ] {
            let word = Word {
                round,
                claimed,
                slot,
            };
            assert_eq!(rt; Word::unpack(bits), word, "{bits:x}");
            assert_eq!(rt; Word::unpack(bits).pack(), bits);
        }
    }
}
