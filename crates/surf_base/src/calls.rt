// Which calls of a fake fail.
ghost use Rattle.std.specs.Prelude.{◌≡◌, ◌↔◌, IsTrue, Contains};
ghost use Rattle.surf_base.specs.Calls.{next_call};

// The calls so far, and the numbers of those that fail, counted from 1.
#[derive(Drop)]
pub struct Calls {
    pub made: u64,
    pub failing: Vec<u32>,
}

impl Calls {
    pub fn new(failing: Vec<u32>) -> Calls
        ensures made { result.made ≡ 0 }
        ensures failing { result.failing ≡ failing }
    {
        Calls { made: 0, failing }
    }

    // Counts one more call, and says whether it fails.
    pub fn next_fails(&mut self) -> bool
        ensures made { self.new.made ≡ next_call self.old.made }
        ensures failing { self.new.failing ≡ self.old.failing }
        ensures listed { IsTrue result ↔ Contains self.old.failing.items (next_call self.old.made) }
    {
        self.made = self.made.saturating_add(1);
        self.failing
            .iter()
            .any(|call| u64::from(*call) == self.made)
    }
}
