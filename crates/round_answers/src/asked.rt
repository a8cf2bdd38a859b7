//! The round that is asked for.
ghost use Rattle.std.specs.Prelude.{◌≡◌, ◌⊎◌, length, IfErr, IfOk, IsTrue, None, Some, ℕ, ◌≢◌};
ghost use Rattle.round_answers.specs.declared.asked.NoRound.TheVariants.{Behind};
ghost use Rattle.image_map.specs.CallModel.{AreSettings};
ghost use Rattle.image_map.specs.Whole.{IsImage};
ghost use Rattle.rounds.specs.Rounds.{IsRound};
ghost use Rattle.round_answers.specs.Asked.{IsAsked, IsNoRound};

use image_map::{Image, Settings};
use rounds::{Round, first, next};
use std::alloc::{AllocError, Global};

/// Which round is asked for.
#[derive(Clone, Copy, Debug)]
pub struct Choice {
    /// How many of the newest call sites a node keeps.
    pub lane: u32,
    /// The round's number, or `None` for the last round.
    pub round: Option<u32>,
}

/// Why there is no round.
#[derive(Clone, Copy, Debug)]
pub enum NoRound {
    /// The round of this number comes after the last.
    Behind(u32),
    /// Memory is wanting.
    Memory,
}

impl From<AllocError> for NoRound {
    ghost use Rattle.std.specs.Prelude.{◌≡◌};
    ghost use Rattle.round_answers.specs.declared.asked.NoRound.TheVariants.{Memory};

    ghost from_gives = { λ _ e. e ≡ Memory };

    fn from(_: AllocError) -> Self {
        NoRound::Memory
    }
}

// Whether no round behind this one is wanted, or there is none.
fn is_end(round: &Round, wanted: Option<u32>) -> bool
    ensures end { IsTrue result → IsTrue round.now.last ⊎ (wanted ≡ Some round.now.number) }
    ensures more { ¬ IsTrue result → (¬ IsTrue round.now.last) × (¬ (wanted ≡ Some round.now.number)) }
{
    round.last || wanted == Some(round.number)
}

// The round at which the way there ended, where it is the one that is asked for.
fn found(round: Round, wanted: Option<u32>) -> Result<Round, NoRound>
    ensures found { IfOk result (λ r. (r ≡ round) × ((wanted ≡ None) ⊎ (wanted ≡ Some round.number))) }
    ensures none { IfErr result (λ none. (n : ℕ) × (none ≡ Behind n) × (wanted ≡ Some n) × (n ≢ round.number)) }
{
    match wanted {
        None => Ok(round),
        Some(n) => {
            if round.number != n {
                return Err(NoRound::Behind(n));
            }
            Ok(round)
        }
    }
}

/// The round that is asked for, of an image that is run with these settings.
///
/// # Errors
/// Where the round of that number comes after the last, and where memory is wanting.
pub fn asked_round(
    alloc: Global,
    image: &Image,
    settings: &Settings,
    choice: &Choice,
) -> Result<Round, NoRound>
    requires image { IsImage image.now }
    requires settings { AreSettings (length image.now.externs) settings.now }
    ensures asked { IfOk result (IsAsked image.now settings.now choice.now) }
    ensures none { IfErr result (IsNoRound image.now settings.now choice.now) }
{
    let mut round = first(alloc, image, settings, choice.lane)?;
    'rounds: while !is_end(&round, choice.round) {
        round = next(alloc, image, settings, &round)?;
    }
    found(round, choice.round)
}
