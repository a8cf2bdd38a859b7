//! Abstract states as the sweeps see them.
ghost use Rattle.std.specs.Prelude.{◌≡◌, IfOk};
ghost use Rattle.abs_semantics.specs.Joins.{joined_state, widened_state};
ghost use Rattle.abs_semantics.specs.Below.{state_below};
ghost use Rattle.abs_state.specs.Views.{seen};
ghost use Rattle.vsa.specs.Same.{same_table};
ghost use Rattle.vsa.specs.Tables.{table_of, state_of};
ghost use Rattle.vsa.specs.Topped.{topped as topped_spec};

use crate::topped::topped;
use abs_state::AbsState;
use std::alloc::{AllocError, Global};
use std::marker::Model;

/// An abstract state, of which contracts see the table.
#[derive(Drop)]
pub struct Tabled {
    state: AbsState,
}

impl Model for Tabled {
    ghost use Rattle.std.specs.Prelude.{◌≡◌, length};
    ghost use Rattle.abs_state.specs.Views.{seen};
    ghost use Rattle.vsa.specs.Tables.{Table, table_of};

    ghost Value = { Table };

    ghost view = { λ t. table_of (seen t.state) };

    ghost invariant = { λ t. length t.state.registers ≡ 8 };
}

impl Tabled {
    /// A state's table.
    #[tactic(auto, using(crate::proofs::TableLemmas::seen_again))]
    pub fn new(state: AbsState) -> Tabled
        ensures table { result ≡ table_of (seen state) }
        ensures state { state_of result ≡ seen state }
    {
        Tabled { state }
    }

    /// The state.
    pub fn state(&self) -> &AbsState
        ensures table { table_of (seen result.now) ≡ self.now }
        ensures state { seen result.now ≡ state_of self.now }
    {
        &self.state
    }

    /// The state, and nothing of the table.
    pub fn into_state(self) -> AbsState
        ensures { seen result ≡ state_of self }
    {
        self.state
    }

    /// An equal table.
    pub fn copied(&self) -> Result<Tabled, AllocError>
        ensures { IfOk result (λ t. t ≡ self.now) }
    {
        Ok(Tabled {
            state: self.state.clone()?,
        })
    }

    /// What either state tells of a run.
    pub fn join(&self, alloc: Global, other: &Tabled) -> Result<Tabled, AllocError>
        ensures { IfOk result (λ t. t ≡ table_of (joined_state (state_of self.now) (state_of other.now))) }
    {
        let state = self.state().join(alloc, other.state())?;
        Ok(Tabled::new(state))
    }

    /// This state widened by another.
    pub fn widen(&self, alloc: Global, other: &Tabled) -> Result<Tabled, AllocError>
        ensures { IfOk result (λ t. t ≡ table_of (widened_state (state_of self.now) (state_of other.now))) }
    {
        let state = self.state().widen(alloc, other.state())?;
        Ok(Tabled::new(state))
    }

    /// Another state, in which everything is allowed wherever it differs from this one.
    pub fn top_differences(&self, alloc: Global, new: &Tabled) -> Result<Tabled, AllocError>
        ensures { IfOk result (λ t. t ≡ table_of (topped_spec (state_of self.now) (state_of new.now))) }
    {
        let state = topped(alloc, self.state(), new.state())?;
        Ok(Tabled::new(state))
    }

    /// Whether this state allows no more than another.
    pub fn is_below(&self, other: &Tabled) -> bool
        ensures { result ≡ state_below (state_of self.now) (state_of other.now) }
    {
        self.state().below(other.state())
    }

    /// Whether the tables don't differ.
    pub fn is_same(&self, other: &Tabled) -> bool
        ensures { result ≡ same_table self.now other.now }
    {
        self.state().equals(other.state())
    }
}
