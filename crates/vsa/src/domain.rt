//! What the sweeps go by: nodes of a program with abstract states.

ghost use Rattle.std.specs.Prelude.{◌≡◌, length, map, IfOk, OnOk};
ghost use Rattle.image_map.specs.CallModel.{AreSettings};
ghost use Rattle.call_strings.specs.declared.context.Node.{Node};
ghost use Rattle.abs_steps.specs.Places.{content_at as content_at_spec};
ghost use Rattle.transfer_flow.specs.Successors.{placed_of as code_placed_of, all_placed};
ghost use Rattle.vsa.specs.Tables.{Table};
ghost use Rattle.vsa.specs.Analysis.{program_of, placed_of, is_ret as is_ret_spec, returns_by};
ghost use Rattle.vsa.specs.Views.{tables_of, lent_tables};

use crate::table::Tabled;
use abs_state::AbsState;
use call_strings::Node;
use ia32_types::Op;
use image_map::{Image, Kind, Settings};
use std::alloc::{AllocError, Global};
use std::marker::Model;
use sweeps::Domain;
use transfer_flow::{Content, Placed, Program, Site, content_at, may_have_led, successors};

/// A program as the sweeps see it.
#[derive(Drop)]
pub(crate) struct Analysis<'a> {
    alloc: Global,
    program: &'a Program<'a>,
}

impl<'a> Model for Analysis<'a> {
    ghost use Rattle.std.specs.Prelude.{length};
    ghost use Rattle.image_map.specs.CallModel.{AreSettings};
    ghost use Rattle.vsa.specs.Analysis.{Analysis as AnalysisSpec, program_of};

    ghost Value = { AnalysisSpec };

    ghost view = { λ x. program_of x.program.now };

    ghost invariant = { λ x. AreSettings (length x.program.now.image.now.externs) x.program.now.settings.now };
}

fn is_ret(op: &Op) -> bool
    ensures { result ≡ is_ret_spec op.now }
{
    matches!(op, Op::Ret)
}

/// Whether what stands at an address returns.
fn returns(image: &Image, settings: &Settings, at: u32) -> bool
    requires { AreSettings (length image.now.externs) settings.now }
    ensures { result ≡ returns_by (content_at_spec image.now settings.now at) }
{
    match content_at(image, settings, at) {
        Content::Extern(Kind::Stop) => false,
        Content::Extern(_) => true,
        Content::Instruction(i) => is_ret(&i.op),
        Content::Nothing => false,
    }
}

/// Other nodes with their states.
fn states<'a>(
    alloc: Global,
    others: &[(&'a Node, &'a Tabled)],
) -> Result<Vec<(&'a Node, &'a AbsState)>, AllocError>
    ensures { IfOk result (λ v. map code_placed_of v.items ≡ placed_of (lent_tables others.now)) }
{
    let mut out = Vec::new(alloc);
    for other in others {
        out.push((other.0, other.1.state()))?;
    }
    Ok(out)
}

/// Nodes with the tables of their states.
fn tables(alloc: Global, all: Placed) -> Result<Vec<(Node, Tabled)>, AllocError>
    ensures { IfOk result (λ v. v.items ≡ tables_of (all_placed all.items)) }
{
    let mut out = Vec::new(alloc);
    for placed in all {
        out.push((placed.0, Tabled::new(placed.1)))?;
    }
    Ok(out)
}

impl<'a> Analysis<'a> {
    pub(crate) fn new(alloc: Global, program: &'a Program<'a>) -> Analysis<'a>
        requires { AreSettings (length program.now.image.now.externs) program.now.settings.now }
        ensures { result ≡ program_of program.now }
    {
        Analysis { alloc, program }
    }

    fn returns_at(&self, place: &Node) -> bool
        ensures { result ≡ returns_by (content_at_spec self.now.image self.now.settings place.now.at) }
    {
        returns(self.program.image, self.program.settings, place.at)
    }
}

impl Domain for Analysis<'_> {
    ghost use Rattle.vsa.specs.Analysis.{meaning_of};
    ghost use Rattle.vsa.specs.Lawful.{is_lawful};

    type Place = Node;

    type State = Tabled;

    ghost meaning = { meaning_of };

    ghost lawful = { is_lawful };

    fn is_before(&self, place: &Node, other: &Node) -> bool {
        place.is_before(other)
    }

    fn address(&self, place: &Node) -> u32 {
        place.at
    }

    fn copy_place(&self, place: &Node) -> Result<Node, AllocError> {
        place.copied()
    }

    fn copy_state(&self, state: &Tabled) -> Result<Tabled, AllocError> {
        state.copied()
    }

    fn looks_at_others(&self, place: &Node) -> bool {
        self.returns_at(place)
    }

    fn concerns(&self, place: &Node, other: &Node) -> bool {
        may_have_led(self.program.lane, other, place) && self.returns_at(place)
    }

    fn successors<'a>(
        &self,
        place: &Node,
        state: &Tabled,
        others: &[(&'a Node, &'a Tabled)],
    ) -> Result<Vec<(Node, Tabled)>, AllocError> {
        let site = Site {
            program: self.program,
            node: place,
            state: state.state(),
        };
        let held = states(self.alloc, others)?;
        let placed = successors(self.alloc, &site, held.as_slice())?;
        let tabled = tables(self.alloc, placed)?;
        Ok(tabled)
    }

    fn join(&self, state: &Tabled, other: &Tabled) -> Result<Tabled, AllocError> {
        state.join(self.alloc, other)
    }

    fn widen(&self, old: &Tabled, new: &Tabled) -> Result<Tabled, AllocError> {
        old.widen(self.alloc, new)
    }

    fn top_differences(&self, old: &Tabled, new: &Tabled) -> Result<Tabled, AllocError> {
        old.top_differences(self.alloc, new)
    }

    fn is_below(&self, state: &Tabled, other: &Tabled) -> bool {
        state.is_below(other)
    }

    fn is_same(&self, state: &Tabled, other: &Tabled) -> bool {
        state.is_same(other)
    }
}
