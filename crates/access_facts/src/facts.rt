//! What accesses say of the cuts of regions.
ghost use Rattle.std.specs.Prelude.{[], cond, ◌≡◌, ◌≤◌, ◌++◌, ◌+ℤ◌, pos, map, OnOk};
ghost use Rattle.std.specs.Int.{int_min};
ghost use Rattle.std.specs.List.{flat_map};
ghost use Rattle.strided.specs.Interval.{greatest};
ghost use Rattle.strided.specs.Operations.{count};
ghost use Rattle.image_map.specs.declared.region.Kind.{Kind};
ghost use Rattle.abs_state.specs.Views.{seen};
ghost use Rattle.abs_steps.specs.Accesses.{extern_reads, extern_writes, reads as reads_spec, writes as writes_spec};
ghost use Rattle.abs_steps.specs.Places.{Extern, Instruction};
ghost use Rattle.abs_steps.specs.Views.{View};
ghost use Rattle.access_facts.specs.Reach.{reaches as reaches_spec};
ghost use Rattle.access_facts.specs.Facts.{facts_at, are_elements as are_elements_spec, bounds as bounds_spec, elements as elements_spec, facts_of_copies, facts_of_copy, facts_of_part, facts_of_parts, facts_of_reach, same as same_spec, same_as_next};

use crate::counts::copies;
use crate::reach::Reach;
use abs_state::AbsState;
use alocs::home;
use asi_cuts::Constraint;
use ia32_types::Instr;
use std::alloc::AllocError;
use vset::Part;

// The end of a range that begins at the last offset; no offset lies above 2^31 - 1.
fn end_of(last: i32, len: u32) -> i32
    ensures { result ≡ int_min (last +ℤ pos len) greatest }
{
    let end = i64::from(last) + i64::from(len);
    end.min(i64::from(i32::MAX)) as i32
}

fn bounds(len: u32, part: &Part) -> Constraint
    ensures { result ≡ bounds_spec len part.now }
{
    Constraint::Bounds {
        region: home(part.region),
        start: part.si.lo(),
        end: end_of(part.si.hi(), len),
    }
}

fn are_elements(len: u32, part: &Part) -> bool
    ensures { result ≡ are_elements_spec len part.now }
{
    2 <= part.si.count() && part.si.count() <= 64 && len <= part.si.stride()
}

fn elements(len: u32, part: &Part) -> Constraint
    requires { count part.now.si ≤ 64 }
    ensures { result ≡ elements_spec len part.now }
{
    Constraint::Elements {
        region: home(part.region),
        start: part.si.lo(),
        stride: part.si.stride(),
        count: part.si.count() as u32,
        len,
    }
}

fn same(len: u32, x: &Part, y: &Part) -> Constraint
    ensures { result ≡ same_spec len x.now y.now }
{
    Constraint::Same {
        a: home(x.region),
        a_start: x.si.lo(),
        b: home(y.region),
        b_start: y.si.lo(),
        len,
    }
}

fn push_part(facts: &mut Vec<Constraint>, len: u32, part: &Part) -> Result<(), AllocError>
    ensures { OnOk result (facts.new.items ≡ facts.old.items ++ facts_of_part len part.now) }
{
    facts.push(bounds(len, part))?;
    if are_elements(len, part) {
        facts.push(elements(len, part))?;
    }
    Ok(())
}

// What two places that follow one another say.
fn push_next(
    facts: &mut Vec<Constraint>,
    len: u32,
    x: &Part,
    behind: &[Part],
) -> Result<(), AllocError>
    ensures { OnOk result (facts.new.items ≡ facts.old.items ++ same_as_next len x.now behind.now) }
{
    if let [y, ..] = behind {
        facts.push(same(len, x, y))?;
    }
    Ok(())
}

fn push_parts(facts: &mut Vec<Constraint>, len: u32, parts: &[Part]) -> Result<(), AllocError>
    ensures { OnOk result (facts.new.items ≡ facts.old.items ++ facts_of_parts len parts.now) }
{
    let mut rest = parts;
    while let Some((part, behind)) = rest.split_first() {
        push_part(facts, len, part)?;
        push_next(facts, len, part, behind)?;
        rest = behind;
    }
    Ok(())
}

fn push_reach(facts: &mut Vec<Constraint>, reach: &Reach) -> Result<(), AllocError>
    ensures { OnOk result (facts.new.items ≡ facts.old.items ++ facts_of_reach reach.now) }
{
    match reach {
        Reach::Anywhere => Ok(()),
        Reach::Within(len, parts) => push_parts(facts, *len, parts.as_slice()),
    }
}

/// What some accesses say, at the end of other facts.
pub(crate) fn push_reaches(facts: &mut Vec<Constraint>, reaches: &[Reach]) -> Result<(), AllocError>
    ensures { OnOk result (facts.new.items ≡ facts.old.items ++ flat_map facts_of_reach reaches.now) }
{
    for reach in reaches {
        push_reach(facts, reach)?;
    }
    Ok(())
}

// A place that is copied to each of some.
fn push_same(facts: &mut Vec<Constraint>, len: u32, x: &Part, ys: &[Part]) -> Result<(), AllocError>
    ensures { OnOk result (facts.new.items ≡ facts.old.items ++ map (same_spec len x.now) ys.now) }
{
    for y in ys {
        facts.push(same(len, x, y))?;
    }
    Ok(())
}

fn push_places(
    facts: &mut Vec<Constraint>,
    len: u32,
    xs: &[Part],
    ys: &[Part],
) -> Result<(), AllocError>
    ensures { OnOk result (facts.new.items ≡ facts.old.items ++ flat_map (λ x. map (same_spec len x) ys.now) xs.now) }
{
    for x in xs {
        push_same(facts, len, x, ys)?;
    }
    Ok(())
}

fn push_copy(facts: &mut Vec<Constraint>, from: &Reach, to: &Reach) -> Result<(), AllocError>
    ensures { OnOk result (facts.new.items ≡ facts.old.items ++ facts_of_copy from.now to.now) }
{
    match from {
        Reach::Anywhere => Ok(()),
        Reach::Within(len, xs) => match to {
            Reach::Anywhere => Ok(()),
            Reach::Within(_, ys) => push_places(facts, *len, xs.as_slice(), ys.as_slice()),
        },
    }
}

fn push_copies_of(facts: &mut Vec<Constraint>, from: &Reach, to: &[Reach]) -> Result<(), AllocError>
    ensures { OnOk result (facts.new.items ≡ facts.old.items ++ flat_map (facts_of_copy from.now) to.now) }
{
    for reach in to {
        push_copy(facts, from, reach)?;
    }
    Ok(())
}

/// What it says that all that is read is copied to what is written, at the end of other facts.
pub(crate) fn push_copies(
    facts: &mut Vec<Constraint>,
    from: &[Reach],
    to: &[Reach],
) -> Result<(), AllocError>
    ensures { OnOk result (facts.new.items ≡ facts.old.items ++ facts_of_copies from.now to.now) }
{
    for reach in from {
        push_copies_of(facts, reach, to)?;
    }
    Ok(())
}

fn push_copies_if(
    facts: &mut Vec<Constraint>,
    copied: bool,
    from: &[Reach],
    to: &[Reach],
) -> Result<(), AllocError>
    ensures { OnOk result (facts.new.items ≡ facts.old.items ++ cond copied (facts_of_copies from.now to.now) []) }
{
    if copied {
        push_copies(facts, from, to)?;
    }
    Ok(())
}

/// What an instruction says by how far its reads and writes may reach, at the end of other facts.
pub(crate) fn push_instruction(
    facts: &mut Vec<Constraint>,
    state: &AbsState,
    instr: &Instr,
    reads: &[Reach],
    writes: &[Reach],
) -> Result<(), AllocError>
    ensures { (v : View) → v.state ≡ seen state.now → reads.now ≡ reaches_spec v (reads_spec instr.now.op v.state instr.now) → writes.now ≡ reaches_spec v (writes_spec instr.now.op v.state instr.now) → OnOk result (facts.new.items ≡ facts.old.items ++ facts_at v (Instruction instr.now)) }
{
    push_reaches(facts, reads)?;
    push_reaches(facts, writes)?;
    let copied = copies(state, &instr.op, &instr.width);
    push_copies_if(facts, copied, reads, writes)?;
    Ok(())
}

/// What an extern says.
pub(crate) fn push_extern(
    facts: &mut Vec<Constraint>,
    reads: &[Reach],
    writes: &[Reach],
) -> Result<(), AllocError>
    ensures { (v : View) (k : Kind) → reads.now ≡ reaches_spec v (extern_reads v.state k) → writes.now ≡ reaches_spec v (extern_writes v k) → OnOk result (facts.new.items ≡ facts.old.items ++ facts_at v (Extern k)) }
{
    push_reaches(facts, reads)?;
    push_reaches(facts, writes)?;
    Ok(())
}
