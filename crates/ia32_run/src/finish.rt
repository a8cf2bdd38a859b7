//! Whether a step completes a run, and how the run ends then.

ghost use Rattle.std.specs.Prelude.{◌≡◌, ℕ, ◌==◌, ◌&&◌, if◌then◌else◌, length, Some, None};
ghost use Rattle.ia32_semantics.specs.Machine.{Occurrence};
ghost use Rattle.ia32_semantics.specs.Step.{Act as ActSpec, HALT as HALT_SPEC, returns_to_halt, operation_completes as operation_completes_spec, kind_completes as kind_completes_spec, completes};
ghost use Rattle.ia32_run.specs.Acts.{act_of};
ghost use Rattle.ia32_run.specs.Traces.{operation_finish as operation_finish_spec, kind_finish as kind_finish_spec, finish_of};

use crate::acts::Act;
use crate::log::Finish;
use ia32_types::Op;
use image_map::Kind;

/// Whether an instruction completes the run, where it is told whether the entry returns by it if it is a RET.
fn operation_completes(op: &Op, returns: bool) -> bool
    ensures { (o : Occurrence ActSpec) → returns ≡ returns_to_halt o → result ≡ operation_completes_spec op.now o }
{
    match op {
        Op::Ret => returns,
        Op::Hlt => true,
        _ => false,
    }
}

fn operation_finish(op: &Op) -> Finish
    ensures { result ≡ operation_finish_spec op.now }
{
    match op {
        Op::Hlt => Finish::Halt,
        _ => Finish::Return,
    }
}

fn kind_completes(kind: &Kind, returns: bool) -> bool
    ensures { (o : Occurrence ActSpec) → returns ≡ returns_to_halt o → result ≡ kind_completes_spec kind.now o }
{
    match kind {
        Kind::Stop => true,
        _ => returns,
    }
}

fn kind_finish(kind: &Kind) -> Finish
    ensures { result ≡ kind_finish_spec kind.now }
{
    match kind {
        Kind::Stop => Finish::Stop,
        _ => Finish::Return,
    }
}

/// How the run ends, where an act completes it.
pub(crate) fn finish_after(act: &Act, returns: bool) -> Option<Finish>
    ensures { (o : Occurrence ActSpec) (at : ℕ) → o.act ≡ act_of at act.now → returns ≡ returns_to_halt o → result ≡ (if completes o then Some (finish_of o.act) else None) }
{
    match act {
        Act::Executes(i) => {
            if operation_completes(&i.op, returns) {
                Some(operation_finish(&i.op))
            } else {
                None
            }
        }
        Act::Answers(kind) => {
            if kind_completes(kind, returns) {
                Some(kind_finish(kind))
            } else {
                None
            }
        }
    }
}
