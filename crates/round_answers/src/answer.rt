//! Replies to questions about a round.
ghost use Rattle.std.specs.Prelude.{◌≡◌, ◌++◌, length, IfErr, IfOk, None, OnOk, Some};
ghost use Rattle.image_map.specs.CallModel.{AreSettings};
ghost use Rattle.image_map.specs.Whole.{IsImage};
ghost use Rattle.rounds.specs.Rounds.{IsRound};
ghost use Rattle.round_texts.specs.Values.{values_reply};
ghost use Rattle.round_answers.specs.Questions.{HasAll, IsNoAnswer};
ghost use Rattle.round_answers.specs.Replies.{IsOwnReply, IsReply, is_warned, warnings_behind};

use crate::lists::{chop_text, forward_text, slice_text};
use crate::matched::{kinds_of, matched_text};
use crate::path::why_text;
use crate::question::{Question, first_absent};
use image_map::{Image, Settings};
use round_texts::{graph_json, locations_text, values_text, warnings_text};
use rounds::Round;
use std::alloc::{AllocError, Global};

/// The reply to a question about a round.
#[derive(Debug, Drop)]
pub struct Answer {
    /// The lines of the reply, and behind them those of the round's warnings, where it has any.
    pub text: Vec<u8>,
    /// Whether the round has warnings.
    pub is_warned: bool,
}

/// Why there is no reply.
#[derive(Clone, Copy, Debug)]
pub enum NoAnswer {
    /// No node of the round stands at this address.
    Absent(u32),
    /// Memory is wanting.
    Memory,
}

impl From<AllocError> for NoAnswer {
    ghost use Rattle.std.specs.Prelude.{◌≡◌};
    ghost use Rattle.round_answers.specs.declared.answer.NoAnswer.TheVariants.{Memory};

    ghost from_gives = { λ _ e. e ≡ Memory };

    fn from(_: AllocError) -> Self {
        NoAnswer::Memory
    }
}

// The reply to a request for values at an address at which a node stands.
fn values_there(alloc: Global, round: &Round, at: u32) -> Result<Vec<u8>, AllocError>
    requires { ¬ (values_reply round.now at ≡ None) }
    ensures { IfOk result (λ text. values_reply round.now at ≡ Some text.items) }
{
    match values_text(alloc, round, at)? {
        None => unreachable!(),
        Some(text) => Ok(text),
    }
}

// The reply to a question of which each address has a node, without the warnings.
fn own_text(
    alloc: Global,
    image: &Image,
    settings: &Settings,
    round: &Round,
    question: &Question,
) -> Result<Vec<u8>, AllocError>
    requires image { IsImage image.now }
    requires settings { AreSettings (length image.now.externs) settings.now }
    requires round { IsRound image.now settings.now round.now }
    requires present { HasAll round.now question.now }
    ensures { IfOk result (λ text. IsOwnReply image.now settings.now round.now question.now text.items) }
{
    match *question {
        Question::Slice { at, skip_sp } => slice_text(alloc, round, at, skip_sp),
        Question::Values { at } => values_there(alloc, round, at),
        Question::Locations => locations_text(alloc, round),
        Question::Graph => graph_json(alloc, round),
        Question::Forward { at, skip_sp } => forward_text(alloc, round, at, skip_sp),
        Question::Chop { from, at, skip_sp } => chop_text(alloc, round, from, at, skip_sp),
        Question::Why { from, at, skip_sp } => why_text(alloc, round, from, at, skip_sp),
        Question::Matched { at, skip_sp } => {
            let kinds = kinds_of(alloc, image, settings, round)?;
            matched_text(alloc, round, &kinds, at, skip_sp)
        }
    }
}

// Puts the warnings of a round behind a text, where it has any, and says whether it has.
fn push_warnings(alloc: Global, text: &mut Vec<u8>, round: &Round) -> Result<bool, AllocError>
    ensures text { OnOk result (text.new.items ≡ text.old.items ++ warnings_behind round.now) }
    ensures warned { IfOk result (λ warned. warned ≡ is_warned round.now) }
{
    if round.warnings.is_empty() {
        return Ok(false);
    }
    let warnings = warnings_text(alloc, round)?;
    text.extend_from_slice(&warnings)?;
    Ok(true)
}

/// The reply to a question about a round of an image that is run with these settings.
///
/// # Errors
/// Where no node of the round stands at an address of the question, and where memory is wanting.
pub fn answer_to(
    alloc: Global,
    image: &Image,
    settings: &Settings,
    round: &Round,
    question: &Question,
) -> Result<Answer, NoAnswer>
    requires image { IsImage image.now }
    requires settings { AreSettings (length image.now.externs) settings.now }
    requires round { IsRound image.now settings.now round.now }
    ensures reply { IfOk result (λ answer. IsReply image.now settings.now round.now question.now answer.text.items) }
    ensures warned { IfOk result (λ answer. answer.is_warned ≡ is_warned round.now) }
    ensures none { IfErr result (IsNoAnswer round.now question.now) }
{
    match first_absent(round.graph.flow.nodes.as_slice(), question) {
        Some(at) => Err(NoAnswer::Absent(at)),
        None => {
            let mut text = own_text(alloc, image, settings, round, question)?;
            let is_warned = push_warnings(alloc, &mut text, round)?;
            Ok(Answer { text, is_warned })
        }
    }
}
