// A shelf in memory, for tests.
ghost use Rattle.std.specs.List.{position};
ghost use Rattle.std.specs.String.{string_bytes};
ghost use Rattle.std.specs.Prelude.{◌≡◌, ◌≢◌, ◌<◌, ◌≤◌, ◌⊎◌, ◌↔◌, ℕ, List, length, MatchOption, IsNone, IsErrOf, OnOk, OnErr, Contains};
ghost use Rattle.surf_base.specs.Calls.{next_call};
ghost use Rattle.surf_base.specs.Faults.{Rose};
ghost use Rattle.surf_base.specs.Shelf.{Answers};
ghost use Rattle.surf_base.specs.MemoryShelf.{is_named, stored, StandsAt, bytes_at, faults_at, shelf_file, shelf_faults, shelf_calls, shelf_failing, SharesCount, PutsFile, SameShelf};

use crate::calls::Calls;
use crate::{Shelf, ShelfError};
use std::alloc::{AllocError, Global};

// A file with the count of its faults.
#[derive(Drop)]
struct StoredFile {
    name: String,
    bytes: Vec<u8>,
    faults: u64,
}

/// Files in memory, of which everything is told. Listed reads fail, and so does a read of a name that isn't there.
#[derive(Drop)]
pub struct MemoryShelf {
    files: Vec<StoredFile>,
    // The faults of each name that has no file.
    unknown: u64,
    calls: Calls,
}

fn position_of(files: &[StoredFile], name: &str) -> Option<usize>
    ensures { result ≡ position (is_named name.now) files.now }
{
    files.iter().position(|file| file.name.as_str() == name)
}

// Where the file with this name stands.
fn place_of(files: &[StoredFile], name: &str) -> Option<usize>
    ensures { MatchOption result (stored files.now name.now ≡ None) (λ at. StandsAt files.now name.now at) }
{
    position_of(files, name)
}

// Gives the file at this place other bytes.
fn put_at(files: &mut [StoredFile], at: usize, bytes: Vec<u8>)
    requires { at < length files.old }
    ensures put { (name : List ℕ) → StandsAt files.old name at → bytes_at files.new name ≡ Some bytes.items }
    ensures others { (name other : List ℕ) → StandsAt files.old name at → other ≢ name → bytes_at files.new other ≡ bytes_at files.old other }
    ensures counts { (name : List ℕ) (unknown : ℕ) → faults_at files.new unknown name ≡ faults_at files.old unknown name }
{
    files[at].bytes = bytes;
}

// Counts a fault of the file at this place.
fn raise_at(files: &mut [StoredFile], at: usize)
    requires { at < length files.old }
    ensures files { (name : List ℕ) → bytes_at files.new name ≡ bytes_at files.old name }
    ensures counts { (name : List ℕ) (unknown : ℕ) → faults_at files.old unknown name ≤ faults_at files.new unknown name }
    ensures others { (name other : List ℕ) (unknown : ℕ) → StandsAt files.old name at → other ≢ name
        → faults_at files.new unknown other ≡ faults_at files.old unknown other }
    ensures rose { (name : List ℕ) (unknown : ℕ) → StandsAt files.old name at
        → Rose (faults_at files.old unknown name) (faults_at files.new unknown name) }
{
    let file = &mut files[at];
    file.faults = file.faults.saturating_add(1);
}

impl MemoryShelf {
    /// A shelf without a file. The reads with the listed numbers, counted from 1, fail.
    pub fn new(alloc: Global, failing: Vec<u32>) -> MemoryShelf
        ensures files { (name : List ℕ) → shelf_file result name ≡ None }
        ensures counts { (name : List ℕ) → shelf_faults result name ≡ 0 }
        ensures calls { shelf_calls result ≡ 0 }
        ensures failing { shelf_failing result ≡ failing.items }
    {
        MemoryShelf {
            files: Vec::new(alloc),
            unknown: 0,
            calls: Calls::new(failing),
        }
    }

    /// Adds a file, in place of the one with that name. Every count stays, so a new file takes over that of its name.
    pub fn add(&mut self, alloc: Global, name: String, bytes: Vec<u8>) -> Result<(), AllocError>
        ensures added { OnOk result (PutsFile self.old self.new (string_bytes name) bytes.items) }
        ensures kept { OnErr result (SameShelf self.old self.new) }
    {
        match place_of(&self.files, name.as_str()) {
            Some(at) => {
                put_at(&mut self.files, at, bytes);
                Ok(())
            }
            None => {
                let faults = self.unknown;
                self.files.push(StoredFile {
                    name,
                    bytes,
                    faults,
                })?;
                Ok(())
            }
        }
    }
}

impl Shelf for MemoryShelf {
    ghost file = { shelf_file };

    ghost faults = { shelf_faults };

    ghost SharesCount = { SharesCount };

    fn read(&mut self, alloc: Global, name: &str, limit: u32) -> Result<Vec<u8>, ShelfError>
        ensures answers { Answers (shelf_file self.old name.now) limit (shelf_faults self.old name.now) (shelf_faults self.new name.now) result }
        ensures files { (other : List ℕ) → shelf_file self.new other ≡ shelf_file self.old other }
        ensures counts { (other : List ℕ) → shelf_faults self.old other ≤ shelf_faults self.new other }
        ensures kept { ¬ IsErrOf result ShelfError.Failed → (other : List ℕ) → shelf_faults self.new other ≡ shelf_faults self.old other }
        ensures others { (other : List ℕ) → ¬ SharesCount self.old name.now other → shelf_faults self.new other ≡ shelf_faults self.old other }
        ensures fails { IsErrOf result ShelfError.Failed ↔ (Contains (shelf_failing self.old) (next_call (shelf_calls self.old))
            ⊎ IsNone (shelf_file self.old name.now)) }
        ensures calls { shelf_calls self.new ≡ next_call (shelf_calls self.old) }
        ensures failing { shelf_failing self.new ≡ shelf_failing self.old }
    {
        let fails = self.calls.next_fails();
        let Some(at) = place_of(&self.files, name) else {
            self.unknown = self.unknown.saturating_add(1);
            return Err(ShelfError::Failed);
        };
        if fails {
            raise_at(&mut self.files, at);
            return Err(ShelfError::Failed);
        }
        let file = &self.files[at];
        if file.bytes.len() > limit as usize {
            return Err(ShelfError::TooLong(limit));
        }
        Ok(file.bytes.to_vec(alloc)?)
    }
}
