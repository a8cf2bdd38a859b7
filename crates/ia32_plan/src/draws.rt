//! What may be any: undefined flags and words of GS.

ghost use Rattle.std.specs.Prelude.{◌≡◌};
ghost use Rattle.ia32_semantics.specs.Operands.{any_word as any_word_spec, any_flag as any_flag_spec, any_flags as any_flags_spec};
ghost use Rattle.ia32_semantics.specs.Rows.{settled as settled_spec};
ghost use Rattle.ia32_plan.specs.Views.{Tells};

use crate::state::Core;
use crate::words::Words;
use ia32_semantics::{FlagOut, FlagsOut};

impl Core {
    /// The next word of choice.
    #[tactic(auto, unfolding(ia32_semantics::specs::Operands::any_word))]
    pub(crate) fn any_word(&self, words: &mut Words) -> Option<u32>
        ensures tells { Tells any_word_spec self.now words.old (λ v. v) result words.new }
        ensures reads { words.new.reads ≡ words.old.reads }
    {
        words.next()
    }

    /// A flag, drawn where it is undefined: bit 16 of its word.
    #[tactic(auto, using(crate::proofs::ToldLemmas::told_bind), unfolding(ia32_semantics::specs::Operands::any_flag))]
    fn any_flag(&self, flag: FlagOut, words: &mut Words) -> Option<FlagOut>
        ensures tells { Tells (any_flag_spec flag) self.now words.old (λ v. v) result words.new }
        ensures reads { words.new.reads ≡ words.old.reads }
    {
        match flag {
            FlagOut::Kept => Some(FlagOut::Kept),
            FlagOut::Set(value) => Some(FlagOut::Set(value)),
            FlagOut::Undefined => {
                let word = self.any_word(words)?;
                Some(FlagOut::Set(word / 0x1_0000 % 2 == 1))
            }
        }
    }

    /// Flags, of which each that is undefined is drawn.
    #[tactic(auto, using(crate::proofs::ToldLemmas::told_bind), unfolding(ia32_semantics::specs::Operands::any_flags))]
    pub(crate) fn any_flags(&self, flags: &FlagsOut, words: &mut Words) -> Option<FlagsOut>
        ensures tells { Tells (any_flags_spec flags.now) self.now words.old (λ v. v) result words.new }
        ensures reads { words.new.reads ≡ words.old.reads }
    {
        let cf = self.any_flag(flags.cf, words)?;
        let pf = self.any_flag(flags.pf, words)?;
        let zf = self.any_flag(flags.zf, words)?;
        let sf = self.any_flag(flags.sf, words)?;
        let of = self.any_flag(flags.of, words)?;
        Some(FlagsOut { cf, pf, zf, sf, of })
    }
}

/// A product's flags, with these for the undefined ones.
pub(crate) fn settled(drawn: &FlagsOut, flags: &FlagsOut) -> FlagsOut
    ensures { result ≡ settled_spec drawn.now flags.now }
{
    FlagsOut {
        cf: flags.cf,
        pf: drawn.pf,
        zf: drawn.zf,
        sf: drawn.sf,
        of: flags.of,
    }
}
