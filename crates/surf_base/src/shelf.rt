// Where files come from.
ghost use Rattle.std.specs.Prelude.{◌≡◌, ◌≤◌, ℕ, List, Option, IsErrOf};
ghost use Rattle.surf_base.specs.declared.shelf.ShelfError.TheVariants.{Memory};
ghost use Rattle.surf_base.specs.Shelf.{Answers};

use std::alloc::{AllocError, AllocFailed, Global};

/// Why a file wasn't read.
#[derive(Clone, Copy, Debug, PartialEq, Eq)]
pub enum ShelfError {
    /// The shelf has failed, and the count of the name's faults rose.
    Failed,
    /// The file is longer than the limit, which is given in bytes.
    TooLong(u32),
    /// Want of memory.
    Memory,
}

impl From<AllocError> for ShelfError {
    ghost from_gives = { λ _ e. e ≡ Memory };

    fn from(_: AllocError) -> Self {
        ShelfError::Memory
    }
}

/// Files by their names.
pub trait Shelf {
    /// The bytes of a name, where they are told.
    ghost file: { Self → List ℕ → Option (List ℕ) };

    /// How often reads of a name have failed.
    ghost faults: { Self → List ℕ → ℕ };

    /// The two names have one count of faults.
    ghost SharesCount: { Self → List ℕ → List ℕ → Type 0 };

    /// The bytes of a file, at most `limit` of them. It leaves every file as it was.
    fn read(&mut self, alloc: Global, name: &str, limit: u32) -> Result<Vec<u8>, ShelfError>
        ensures answers { Answers (file self.old name.now) limit (faults self.old name.now) (faults self.new name.now) result }
        ensures files { (other : List ℕ) → file self.new other ≡ file self.old other }
        ensures counts { (other : List ℕ) → faults self.old other ≤ faults self.new other }
        // Only a failing read counts, and it counts only for its name and those that share the count.
        ensures kept { ¬ IsErrOf result ShelfError.Failed → (other : List ℕ) → faults self.new other ≡ faults self.old other }
        ensures others { (other : List ℕ) → ¬ SharesCount self.old name.now other → faults self.new other ≡ faults self.old other };
}
