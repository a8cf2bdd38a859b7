//! All requests of a session.

ghost use Rattle.std.specs.Prelude.{◌≡◌, All, length, IfOk};
ghost use Rattle.image_map.specs.CallModel.{AreSettings};
ghost use Rattle.image_map.specs.Whole.{IsImage};
ghost use Rattle.service.specs.Seats.{HasLane, IsReady};
ghost use Rattle.service.specs.Requests.{IsAskable};
ghost use Rattle.service.specs.Runs.{own_requests, AnswersAll};

use crate::gate::Gate;
use crate::session::Session;
use crate::shop::Shop;
use requests::Script;
use std::alloc::{AllocError, Global};
use std::sync::Wait;

impl Session {
    /// Answers those requests of a script that are its own, in their order, and gives the text of its replies.
    ///
    /// # Errors
    /// Where memory is wanting. What was published stays.
    pub fn run<R: Wait, G: Gate>(
        &mut self,
        rt: &R,
        alloc: Global,
        shop: &Shop,
        script: &Script,
        gate: &G,
    ) -> Result<Vec<u8>, AllocError>
        requires ready { IsReady shop.now self.old.seat.place self.old.seat.pinned }
        requires lane { HasLane shop.now self.old.lane }
        requires requests { All (λ line. IsAskable shop.now line.1) script.now.lines }
        requires image { IsImage shop.now.image }
        requires settings { AreSettings (length shop.now.image.externs) shop.now.settings }
        ensures ready { IsReady shop.now self.new.seat.place self.new.seat.pinned }
        ensures number { self.new.number ≡ self.old.number }
        ensures answers { IfOk result (λ text. AnswersAll shop.now (own_requests self.old.number script.now.lines) self.old self.new text.items) }
    {
        let mut text = Vec::new(alloc);
        let mut rest = script.lines.as_slice();
        'lines: while let Some((line, after)) = rest.split_first() {
            if line.0 == self.number {
                self.answer(rt, alloc, shop, &line.1, gate)?;
                text.extend_from_slice(self.text())?;
            }
            rest = after;
        }
        Ok(text)
    }
}
