//! Laws of the definitions.
ghost use Rattle.std.specs.Prelude.{◌≡◌, ◌<◌, ℕ, List};
ghost use Rattle.image_map.specs.declared.image.Image.{Image};
ghost use Rattle.image_map.specs.declared.region.Settings.{Settings};
ghost use Rattle.rounds.specs.declared.round.Round.{Round};
ghost use Rattle.rounds.specs.Rounds.{IsRound};
ghost use Rattle.round_answers.specs.declared.asked.Choice.{Choice};
ghost use Rattle.round_answers.specs.declared.question.Question.{Question};
ghost use Rattle.round_answers.specs.Asked.{IsAsked, IsBehindLast};
ghost use Rattle.round_answers.specs.Replies.{IsReply};

/// Behind the last round there is none, so that the round that is asked for has one number at most.
pub fn rounds_end()
    ensures none_behind { (image : Image) (settings : Settings) (r : Round) → IsRound image settings r → ¬ IsBehindLast image settings r.lane r.number }
    ensures one { (image : Image) (settings : Settings) (choice : Choice) (r q : Round) → IsAsked image settings choice r → IsAsked image settings choice q → (r.number ≡ q.number) × (r.lane ≡ q.lane) }
{}

/// A question has one reply at most, whichever round of this number and this number of call sites it is asked of.
pub fn replies_are_settled()
    ensures { (image : Image) (settings : Settings) (r q : Round) (question : Question) (a b : List ℕ) → IsRound image settings r → IsRound image settings q → r.number ≡ q.number → r.lane ≡ q.lane → IsReply image settings r question a → IsReply image settings q question b → a ≡ b }
{}
