//! Marks of steps.
ghost use Rattle.std.specs.Prelude.{◌≡◌, ◌↔◌, ℕ, ◌<◌, false, length, replicate, Contains};
ghost use Rattle.flow_graph.specs.Walks.{IsOn};
ghost use Rattle.flow_graph.specs.Marked.{Marked};
ghost use Rattle.dynamic_slices.specs.Marks.{Marks};
ghost use Rattle.dynamic_slices.specs.Slices.{depends_of as depends_spec, IsToldToDepend, DependOnEarlier, IsInSlice};

use flow_graph::is_on;
use ia32_run::Occurrence;

/// The steps on which one depends directly, with or without ESP.
pub fn depends_of(step: &Occurrence, skip_sp: bool) -> &[u32]
    ensures { result.now ≡ depends_spec skip_sp step.now }
{
    if skip_sp {
        step.depends_skip.as_slice()
    } else {
        step.depends.as_slice()
    }
}

/// Marks a step; there is no mark past the last.
fn mark(marks: &mut [bool], step: u32)
    ensures { Marks (λ n. n ≡ step) marks.old marks.new }
{
    let place = step as usize;
    if place < marks.len() {
        marks[place] = true;
    }
}

/// Marks these steps.
fn mark_all(marks: &mut [bool], steps: &[u32])
    ensures { Marks (Contains steps.now) marks.old marks.new }
{
    for step in steps {
        mark(marks, *step);
    }
}

/// Marks the steps on which a step depends directly, if it is marked.
fn mark_sources_of(steps: &[Occurrence], place: usize, skip_sp: bool, marks: &mut [bool])
    requires { place < length steps.now }
    ensures { Marks (λ i. IsOn marks.old place × IsToldToDepend skip_sp steps.now place i) marks.old marks.new }
{
    if is_on(marks, place) {
        mark_all(marks, depends_of(&steps[place], skip_sp));
    }
}

/// Marks the steps on which a marked one depends, directly or through others.
fn mark_sources(steps: &[Occurrence], skip_sp: bool, marks: &mut [bool])
    requires earlier { DependOnEarlier skip_sp steps.now }
    requires long { length marks.old ≡ length steps.now }
    ensures { (n : ℕ) → IsOn marks.new n ↔ Marked (IsOn marks.old) (IsToldToDepend skip_sp steps.now) n }
{
    let count = steps.len();
    for done in 0..count {
        mark_sources_of(steps, count - 1 - done, skip_sp, marks);
    }
}

/// Marks a step, and those on which it depends, directly or through others.
pub(crate) fn mark_slice(steps: &[Occurrence], last: u32, skip_sp: bool, marks: &mut [bool])
    requires earlier { DependOnEarlier skip_sp steps.now }
    requires last { last < length steps.now }
    requires none { marks.old ≡ replicate (length steps.now) false }
    ensures { (n : ℕ) → IsOn marks.new n ↔ IsInSlice (IsToldToDepend skip_sp steps.now) last n }
{
    mark(marks, last);
    mark_sources(steps, skip_sp, marks);
}
