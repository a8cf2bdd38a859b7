//! What is read at addresses of memory, and the values of operands.

ghost use Rattle.std.specs.Prelude.{◌≡◌, ◌≤◌, ◌<◌, [], not, nat_lt, length, get_or, Some, IfOk};
ghost use Rattle.ia32_types.specs.declared.Width.TheVariants.{B8, W16};
ghost use Rattle.strided.specs.Operations.{count};
ghost use Rattle.vset.specs.Operations.{join};
ghost use Rattle.vset.specs.Values.{Parts};
ghost use Rattle.abs_semantics.specs.Touching.{cell_at as cell_at_spec, members, both_lists, cells_at, cells_of_parts as cells_of_parts_spec};
ghost use Rattle.abs_semantics.specs.Accesses.{sure_entries as sure_entries_spec, number_of_members, cells_of_few as cells_of_few_spec, cells_read as cells_read_spec, joined_onto as joined_onto_spec, read as read_spec};
ghost use Rattle.abs_semantics.specs.Operands.{numbers_or_any as numbers_or_any_spec, low_numbers, low_of as low_of_spec, second_byte as second_byte_spec, read_as as read_as_spec, memory_value as memory_value_spec, operand_value};
ghost use Rattle.abs_state.specs.Views.{seen};
ghost use Rattle.abs_state.specs.Reads.{items_of, told_by};

use crate::state::AbsState;
use abs_alu::{known, number};
use abs_resolve::Places;
use abs_results::{any_of, word_number};
use alocs::Cells;
use cell_map::has_length;
use ia32_alu::low_part;
use ia32_types::{Mem, Operand, Width};
use image_map::{Cell, RegionId};
use si_bits::{low8, low16};
use std::alloc::{AllocError, Global};
use strided::Si;
use vset::{Part, ValueSet};

/// At most so many ranges are read one by one.
const MOST_MEMBERS: u64 = 64;

/// A cell by its place.
pub(crate) fn element(cells: &[Cell], i: usize) -> Cell
    requires { i < length cells.now }
    ensures { result ≡ get_or cells.now i result }
{
    cells[i]
}

/// The cell that is `len` bytes from an offset of a region on.
pub fn cell_at(cells: &Cells, region: RegionId, offset: i32, len: u32) -> Option<Cell>
    ensures { result ≡ cell_at_spec cells.now region offset len }
{
    match cells.cell_of(region, offset) {
        Some(cell) if cell.start == offset && has_length(len, &cell) => Some(cell),
        _ => None,
    }
}

/// The places, where there is no reason that the address may mean others.
pub(crate) fn sure_entries(places: Places) -> Option<Vec<Part>>
    ensures { items_of result ≡ sure_entries_spec (told_by places) }
{
    if places.reasons.is_empty() {
        Some(places.entries)
    } else {
        None
    }
}

/// Whether the intervals have 64 members at most.
fn are_few(xs: &[Part]) -> bool
    ensures { result ≡ not (nat_lt 64 (number_of_members xs.now)) }
{
    let mut left = MOST_MEMBERS;
    for x in xs {
        let members = x.si.count();
        if left < members {
            return false;
        }
        left -= members;
    }
    true
}

/// The cells that the ranges from a part's members on are, behind others, where each is one.
fn with_cells(
    into: Vec<Cell>,
    cells: &Cells,
    len: u32,
    x: &Part,
) -> Result<Option<Vec<Cell>>, AllocError>
    requires { count x.now.si ≤ 64 }
    ensures { IfOk result (λ r. items_of r ≡ both_lists (Some into.items) (cells_at cells.now len x.now.region (members x.now.si))) }
{
    let mut out = into;
    for i in 0..x.si.count() as u32 {
        match cell_at(cells, x.region, x.si.member(i), len) {
            None => return Ok(None),
            Some(cell) => out.push(cell)?,
        }
    }
    Ok(Some(out))
}

/// The cells that the ranges from all members on are, where each is one.
fn cells_of_parts(
    alloc: Global,
    cells: &Cells,
    len: u32,
    xs: &[Part],
) -> Result<Option<Vec<Cell>>, AllocError>
    requires { number_of_members xs.now ≤ 64 }
    ensures { IfOk result (λ r. items_of r ≡ cells_of_parts_spec cells.now len xs.now) }
{
    let mut out = Vec::new(alloc);
    for x in xs {
        out = match with_cells(out, cells, len, x)? {
            None => return Ok(None),
            Some(more) => more,
        };
    }
    Ok(Some(out))
}

fn cells_of_few(
    alloc: Global,
    cells: &Cells,
    len: u32,
    xs: &[Part],
) -> Result<Option<Vec<Cell>>, AllocError>
    ensures { IfOk result (λ r. items_of r ≡ cells_of_few_spec cells.now len (Some xs.now)) }
{
    if are_few(xs) {
        cells_of_parts(alloc, cells, len, xs)
    } else {
        Ok(None)
    }
}

fn numbers_or_any(width: Width, numbers: Option<Si>) -> ValueSet
    ensures { result ≡ numbers_or_any_spec width numbers }
{
    match numbers {
        None => any_of(width),
        Some(x) => ValueSet::numbers(x),
    }
}

/// What is read at a width: a value that isn't of numbers alone may be any number of so many bits.
pub fn read_as(width: Width, value: ValueSet) -> ValueSet
    ensures { result ≡ read_as_spec width value }
{
    match width {
        Width::B8 => numbers_or_any(Width::B8, value.only_number()),
        Width::W16 => numbers_or_any(Width::W16, value.only_number()),
        Width::D32 => value,
    }
}

fn low_byte(numbers: Option<Si>) -> ValueSet
    ensures { result ≡ low_numbers B8 numbers }
{
    match numbers {
        None => any_of(Width::B8),
        Some(x) => ValueSet::numbers(low8(&x)),
    }
}

fn low_word(numbers: Option<Si>) -> ValueSet
    ensures { result ≡ low_numbers W16 numbers }
{
    match numbers {
        None => any_of(Width::W16),
        Some(x) => ValueSet::numbers(low16(&x)),
    }
}

/// The low part of a value.
fn low_of(width: Width, value: &ValueSet) -> Result<ValueSet, AllocError>
    ensures { IfOk result (λ v. v ≡ low_of_spec width value.now) }
{
    match width {
        Width::B8 => Ok(low_byte(value.only_number())),
        Width::W16 => Ok(low_word(value.only_number())),
        Width::D32 => value.clone(),
    }
}

/// The second byte of a word.
fn second_byte(word: Option<u32>) -> ValueSet
    ensures { result ≡ second_byte_spec word }
{
    match word {
        None => any_of(Width::B8),
        Some(n) => number((n / 0x100 % 0x100) as i32),
    }
}

/// A value put to none.
#[tactic(auto, using(crate::proofs::ReadLemmas::joined_to_none))]
fn first_joined(alloc: Global, value: ValueSet) -> Result<ValueSet, AllocError>
    ensures { IfOk result (λ v. v ≡ join (Parts []) value) }
{
    match value.parts() {
        None => Ok(value),
        Some([only]) => Ok(ValueSet::one(*only)),
        Some(_) => ValueSet::from_parts(Vec::new(alloc)).join(alloc, &value),
    }
}

impl AbsState {
    /// The values of some cells, put to others.
    fn joined_onto(
        &self,
        alloc: Global,
        into: ValueSet,
        cells: &[Cell],
    ) -> Result<ValueSet, AllocError>
        ensures { IfOk result (λ v. v ≡ joined_onto_spec (seen self.now) into cells.now) }
    {
        let mut out = into;
        for i in 0..cells.len() {
            let cell = element(cells, i);
            let value = self.value_at(&cell)?;
            out = out.join(alloc, &value)?;
        }
        Ok(out)
    }

    /// The values of some cells.
    fn joined(&self, alloc: Global, cells: &[Cell]) -> Result<ValueSet, AllocError>
        ensures { IfOk result (λ v. v ≡ joined_onto_spec (seen self.now) (Parts []) cells.now) }
    {
        match cells.split_first() {
            None => Ok(ValueSet::from_parts(Vec::new(alloc))),
            Some((cell, rest)) => {
                let first = first_joined(alloc, self.value_at(cell)?)?;
                self.joined_onto(alloc, first, rest)
            }
        }
    }

    /// The cells that a read of `len` bytes is made of, at a node of a procedure, or `None` where they aren't known.
    pub fn cells_read(
        &self,
        alloc: Global,
        cells: &Cells,
        procedure: u32,
        address: &ValueSet,
        len: u32,
    ) -> Result<Option<Vec<Cell>>, AllocError>
        ensures { IfOk result (λ r. items_of r ≡ cells_read_spec (seen self.now) cells.now procedure address.now len) }
    {
        let places = self.resolve(alloc, procedure, address, len)?;
        match sure_entries(places) {
            None => Ok(None),
            Some(entries) => cells_of_few(alloc, cells, len, entries.as_slice()),
        }
    }

    /// What `len` bytes at an address hold, at a node of a procedure.
    pub fn read(
        &self,
        alloc: Global,
        cells: &Cells,
        procedure: u32,
        address: &ValueSet,
        len: u32,
    ) -> Result<ValueSet, AllocError>
        ensures { IfOk result (λ v. v ≡ read_spec (seen self.now) cells.now procedure address.now len) }
    {
        match self.cells_read(alloc, cells, procedure, address, len)? {
            None => Ok(ValueSet::top()),
            Some(found) => self.joined(alloc, found.as_slice()),
        }
    }

    /// What memory holds at an operand's address; where it counts from GS it may hold anything.
    fn memory_value(
        &self,
        alloc: Global,
        cells: &Cells,
        procedure: u32,
        width: Width,
        m: &Mem,
    ) -> Result<ValueSet, AllocError>
        ensures { IfOk result (λ v. v ≡ memory_value_spec (seen self.now) cells.now procedure width m.now) }
    {
        if m.gs {
            return Ok(any_of(width));
        }
        let address = self.address(alloc, m)?;
        let value = self.read(alloc, cells, procedure, &address, width.bytes())?;
        Ok(read_as(width, value))
    }

    /// The value of an operand, at a node of a procedure. Below 32 bits it is a number without a sign.
    #[tactic(auto, unfolding(abs_semantics::specs::Operands::operand_value))]
    pub fn operand(
        &self,
        alloc: Global,
        cells: &Cells,
        procedure: u32,
        width: Width,
        operand: &Operand,
    ) -> Result<ValueSet, AllocError>
        ensures { IfOk result (λ v. v ≡ operand_value (seen self.now) cells.now procedure width operand.now) }
    {
        match operand {
            Operand::Reg(register) => low_of(width, self.register(*register)),
            Operand::High(register) => Ok(second_byte(known::<32>(self.register(*register)))),
            Operand::Imm(word) => Ok(word_number(low_part(width, *word))),
            Operand::Mem(m) => self.memory_value(alloc, cells, procedure, width, m),
        }
    }
}
