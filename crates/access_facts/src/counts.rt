//! How often an instruction repeats, where it is known.
ghost use Rattle.std.specs.Prelude.{◌≡◌, ◌*◌, ◌^◌, ◌&&◌, nat_le, pos, int_le, unsigned_abs};
ghost use Rattle.abs_state.specs.Views.{seen};
ghost use Rattle.abs_steps.specs.Strings.{count_of, goes_up as goes_up_spec};
ghost use Rattle.access_facts.specs.Facts.{copies as copies_spec};
ghost use Rattle.access_facts.specs.Sets.{is_one_number, writes_a_known_count as writes_a_known_count_spec};

use crate::core_sets::is_repeated;
use abs_state::AbsState;
use ia32_types::{Flag, Instr, Op, Reg, Width};
use strided::Si;

fn goes_up(state: &AbsState) -> bool
    ensures { result ≡ goes_up_spec (seen state.now).flags }
{
    if !state.flags.zero.has(Flag::Df) {
        return false;
    }
    !state.flags.one.has(Flag::Df)
}

fn is_counted(size: u32, count: &Si) -> bool
    ensures { result ≡ (int_le (pos 0) count.now.lo && nat_le (unsigned_abs count.now.hi * size) (2 ^ 20)) }
{
    0 <= count.lo() && u64::from(count.hi().unsigned_abs()) * u64::from(size) <= 1 << 20
}

// Whether a count of elements is known, and one number.
fn is_one_count(state: &AbsState, size: u32) -> bool
    ensures { result ≡ is_one_number (count_of (seen state.now) size) }
{
    if !goes_up(state) {
        return false;
    }
    match state.registers.value(Reg::Ecx).only_number() {
        None => false,
        Some(count) => {
            if is_counted(size, &count) {
                count.stride() == 0
            } else {
                false
            }
        }
    }
}

/// Whether an instruction writes so many bytes and no fewer.
pub(crate) fn writes_a_known_count(state: &AbsState, instr: &Instr) -> bool
    ensures { result ≡ writes_a_known_count_spec (seen state.now) instr.now }
{
    if is_repeated(&instr.op) {
        is_one_count(state, instr.width.bytes())
    } else {
        true
    }
}

/// Whether what an instruction reads is copied as it stands.
#[tactic(auto, unfolding(crate::specs::Facts::copies))]
pub(crate) fn copies(state: &AbsState, op: &Op, width: &Width) -> bool
    ensures { result ≡ copies_spec op.now (seen state.now) width.now }
{
    match op {
        Op::Movs { rep } => {
            if *rep {
                is_one_count(state, width.bytes())
            } else {
                true
            }
        }
        _ => false,
    }
}
