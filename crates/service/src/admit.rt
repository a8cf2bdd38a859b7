//! Which requests a shop can answer.

ghost use Rattle.std.specs.Prelude.{◌≡◌, ◌↔◌, All, IsTrue};
ghost use Rattle.service.specs.Requests.{IsAskable};

use crate::shop::Shop;
use requests::{Request, Script};

impl Shop {
    /// Whether sessions may be asked this.
    fn admits_request(&self, request: &Request) -> bool
        ensures { IsTrue result ↔ IsAskable self.now request.now }
    {
        match request {
            Request::Slice { .. }
            | Request::Values(_)
            | Request::Warnings
            | Request::Locations
            | Request::Step => true,
            Request::Lane(sites) => match self.lanes.get(*sites as usize) {
                Some(Some(_)) => true,
                _ => false,
            },
            _ => false,
        }
    }

    /// Whether sessions may be asked all of this: slices, what rounds hold, steps, and numbers of call sites whose rounds the
    /// shop has.
    pub fn admits(&self, script: &Script) -> bool
        ensures { IsTrue result ↔ All (λ line. IsAskable self.now line.1) script.now.lines }
    {
        let lines = script.lines.as_slice();
        for i in 0..lines.len() {
            if !self.admits_request(&lines[i].1) {
                return false;
            }
        }
        true
    }
}
