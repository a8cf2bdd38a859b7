//! The seats that read a slot.

ghost use Rattle.std.specs.Prelude.{◌≡◌, ◌==◌, ◌<◌};
ghost use Rattle.std.specs.List.{list_any};
ghost use Rattle.std.specs.Ordering.{nat_cmp};
ghost use Rattle.std.specs.FinSet as set;

use std::marker::Model;

/// The most seats that a core can have.
pub const MAX_SEATS: u32 = 12;

/// A set of seats, each below `MAX_SEATS`.
#[derive(Drop)]
pub struct Readers {
    flags: [bool; 12],
}

impl Model for Readers {
    ghost use Rattle.std.specs.Ordering.{nat_cmp};
    ghost use Rattle.std.specs.FinSet as set;
    ghost use Rattle.std.specs.Coded.{coded_ℕ};
    ghost use Rattle.round_core.specs.Flags.{flagged};

    ghost Value = { set.FinSet nat_cmp };

    ghost coded = { set.code coded_ℕ };

    ghost view = { λ a. flagged 0 a.flags };
}

impl Readers {
    pub fn new() -> Self
        ensures { result ≡ set.empty }
    {
        Readers { flags: [false; 12] }
    }

    pub fn is_empty(&self) -> bool
        ensures { result ≡ (set.len self.now == 0) }
    {
        !some_up(&self.flags)
    }

    pub fn contains(&self, seat: u32) -> bool
        ensures { result ≡ set.contains self.now seat }
    {
        self.flags.get(seat as usize).copied().unwrap_or(false)
    }

    pub fn insert(&mut self, seat: u32)
        requires { seat < MAX_SEATS }
        ensures { self.new ≡ set.insert self.old seat }
    {
        self.flags[seat as usize] = true;
    }

    pub fn remove(&mut self, seat: u32)
        requires { seat < MAX_SEATS }
        ensures { self.new ≡ set.remove self.old seat }
    {
        self.flags[seat as usize] = false;
    }
}

/// Some flag is up.
fn some_up(flags: &[bool]) -> bool
    ensures { result ≡ list_any (λ up. up) flags.now }
{
    flags.iter().any(|up| *up)
}
