//! Doing what a plan says.

ghost use Rattle.std.specs.Prelude.{◌≡◌, ◌≤◌, ◌-◌, ◌^◌, true, if◌then◌else◌, [], ◌∷◌, ◌++◌};
ghost use Rattle.image_map.specs.declared.image.Image.{Image};
ghost use Rattle.image_map.specs.Shapes.{shapes};
ghost use Rattle.ia32_types.specs.Numbers.{reg_number, flag_number, size};
ghost use Rattle.ia32_semantics.specs.Effects.{Whole, Low, High, sets, turns, changed, all_changed, effects_fit};
ghost use Rattle.ia32_semantics.specs.Operands.{part_of, flag_effect, flag_effects};
ghost use Rattle.ia32_semantics.specs.Rows.{halves, quotient_effects};
ghost use Rattle.ia32_semantics.specs.Strings.{stepped as stepped_spec, copied, filled};
ghost use Rattle.ia32_memory.specs.Mapped.{bytes_of};
ghost use Rattle.ia32_plan.specs.Plans.{entry_effects, all_effects};
ghost use Rattle.ia32_plan.specs.Views.{state_of};

use ia32_alu::{with_part, with_second_byte};
use ia32_memory::Elements;
use ia32_plan::{Core, Effects, Entry};
use ia32_semantics::{FlagOut, FlagsOut};
use ia32_types::{Flag, Reg, Width};

/// Puts a value into a register, or into the part of it that an operand of a width is.
fn set(core: &mut Core, width: Width, reg: Reg, value: u32)
    ensures state { state_of core.new ≡ changed (sets (part_of width) (reg_number reg) value) (state_of core.old) }
    ensures memory { core.new.memory ≡ core.old.memory }
{
    let at = usize::from(reg.number());
    core.regs[at] = with_part(width, core.regs[at], value);
}

fn set_high(core: &mut Core, reg: Reg, value: u32)
    ensures state { state_of core.new ≡ changed (sets High (reg_number reg) value) (state_of core.old) }
    ensures memory { core.new.memory ≡ core.old.memory }
{
    let at = usize::from(reg.number());
    core.regs[at] = with_second_byte(core.regs[at], value);
}

fn turn(core: &mut Core, flag: Flag, value: bool)
    ensures state { state_of core.new ≡ changed (turns (flag_number flag) value) (state_of core.old) }
    ensures memory { core.new.memory ≡ core.old.memory }
{
    match flag {
        Flag::Cf => core.flags.cf = value,
        Flag::Pf => core.flags.pf = value,
        Flag::Zf => core.flags.zf = value,
        Flag::Sf => core.flags.sf = value,
        Flag::Of => core.flags.of = value,
        Flag::Df => core.df = value,
    }
}

/// Turns a flag where it is set.
fn set_flag(core: &mut Core, flag: Flag, out: FlagOut)
    ensures state { state_of core.new ≡ all_changed (flag_effect (flag_number flag) out) (state_of core.old) }
    ensures memory { core.new.memory ≡ core.old.memory }
{
    match out {
        FlagOut::Set(value) => turn(core, flag, value),
        FlagOut::Kept | FlagOut::Undefined => {}
    }
}

fn set_flags(core: &mut Core, flags: &FlagsOut)
    ensures state { state_of core.new ≡ all_changed (flag_effects flags.now) (state_of core.old) }
    ensures memory { core.new.memory ≡ core.old.memory }
{
    set_flag(core, Flag::Cf, flags.cf);
    set_flag(core, Flag::Pf, flags.pf);
    set_flag(core, Flag::Zf, flags.zf);
    set_flag(core, Flag::Sf, flags.sf);
    set_flag(core, Flag::Of, flags.of);
}

/// Puts two values into AX and DX, or into EAX and EDX.
fn set_pair(core: &mut Core, width: Width, low: u32, high: u32)
    ensures state { state_of core.new ≡ all_changed (sets (part_of width) 0 low ∷ sets (part_of width) 2 high ∷ []) (state_of core.old) }
    ensures memory { core.new.memory ≡ core.old.memory }
{
    set(core, width, Reg::Eax, low);
    set(core, width, Reg::Edx, high);
}

/// Puts the halves of a product into AX, DX:AX or EDX:EAX.
fn set_halves(core: &mut Core, width: Width, low: u32, high: u32)
    ensures state { state_of core.new ≡ all_changed (halves width low high) (state_of core.old) }
    ensures memory { core.new.memory ≡ core.old.memory }
{
    match width {
        Width::B8 => set(
            core,
            Width::W16,
            Reg::Eax,
            low % 65_536 + 256 * (high % 256),
        ),
        Width::W16 => set_pair(core, Width::W16, low, high),
        Width::D32 => set_pair(core, Width::D32, low, high),
    }
}

/// Puts quotient and remainder into AL and AH.
fn set_bytes(core: &mut Core, quotient: u32, remainder: u32)
    ensures state { state_of core.new ≡ all_changed (sets Low 0 quotient ∷ sets High 0 remainder ∷ []) (state_of core.old) }
    ensures memory { core.new.memory ≡ core.old.memory }
{
    set(core, Width::B8, Reg::Eax, quotient);
    set_high(core, Reg::Eax, remainder);
}

/// Puts quotient and remainder into AL and AH, AX and DX, or EAX and EDX.
fn set_quotient(core: &mut Core, width: Width, quotient: u32, remainder: u32)
    ensures state { state_of core.new ≡ all_changed (quotient_effects width quotient remainder) (state_of core.old) }
    ensures memory { core.new.memory ≡ core.old.memory }
{
    match width {
        Width::B8 => set_bytes(core, quotient, remainder),
        Width::W16 => set_pair(core, Width::W16, quotient, remainder),
        Width::D32 => set_pair(core, Width::D32, quotient, remainder),
    }
}

/// How far an address goes by one element.
fn step(down: bool, width: Width) -> u32
    ensures { result ≡ (if down then 2 ^ 32 - size width else size width) }
{
    if down {
        u32::MAX - (width.bytes() - 1)
    } else {
        width.bytes()
    }
}

/// The address so many elements behind another.
pub(crate) fn stepped(down: bool, width: Width, count: u32, address: u32) -> u32
    ensures { result ≡ stepped_spec down (size width) count address }
{
    address.wrapping_add(count.wrapping_mul(step(down, width)))
}

/// Copies elements, and puts the addresses behind them into ESI and EDI.
fn copy(core: &mut Core, elements: Elements, from: u32, to: u32)
    ensures state { (image : Image) → effects_fit image (bytes_of core.old.memory) (copied elements.down (size elements.width) elements.count from to ++ (sets Whole 6 (stepped_spec elements.down (size elements.width) elements.count from) ∷ sets Whole 7 (stepped_spec elements.down (size elements.width) elements.count to) ∷ [])) ≡ true → state_of core.new ≡ all_changed (copied elements.down (size elements.width) elements.count from to ++ (sets Whole 6 (stepped_spec elements.down (size elements.width) elements.count from) ∷ sets Whole 7 (stepped_spec elements.down (size elements.width) elements.count to) ∷ [])) (state_of core.old) }
    ensures shapes { shapes core.new.memory ≡ shapes core.old.memory }
{
    let source = stepped(elements.down, elements.width, elements.count, from);
    let target = stepped(elements.down, elements.width, elements.count, to);
    core.memory.copy(elements, from, to);
    set(core, Width::D32, Reg::Esi, source);
    set(core, Width::D32, Reg::Edi, target);
}

/// Stores a value in elements, and puts the address behind them into EDI.
fn fill(core: &mut Core, elements: Elements, to: u32, value: u32)
    ensures state { (image : Image) → effects_fit image (bytes_of core.old.memory) (filled elements.down (size elements.width) value elements.count to ++ (sets Whole 7 (stepped_spec elements.down (size elements.width) elements.count to) ∷ [])) ≡ true → state_of core.new ≡ all_changed (filled elements.down (size elements.width) value elements.count to ++ (sets Whole 7 (stepped_spec elements.down (size elements.width) elements.count to) ∷ [])) (state_of core.old) }
    ensures shapes { shapes core.new.memory ≡ shapes core.old.memory }
{
    let target = stepped(elements.down, elements.width, elements.count, to);
    core.memory.fill(elements, to, value);
    set(core, Width::D32, Reg::Edi, target);
}

/// Does what an entry says, where it fits.
pub fn perform(core: &mut Core, entry: &Entry)
    ensures state { (image : Image) → effects_fit image (bytes_of core.old.memory) (entry_effects entry.now) ≡ true → state_of core.new ≡ all_changed (entry_effects entry.now) (state_of core.old) }
    ensures shapes { shapes core.new.memory ≡ shapes core.old.memory }
{
    match entry {
        Entry::Set(width, reg, value) => set(core, *width, *reg, *value),
        Entry::High(reg, value) => set_high(core, *reg, *value),
        Entry::Turn(flag, value) => turn(core, *flag, *value),
        Entry::Flags(flags) => set_flags(core, flags),
        Entry::Store { at, width, value } => core.memory.write(*width, *at, *value),
        Entry::Halves { width, low, high } => set_halves(core, *width, *low, *high),
        Entry::Quotient {
            width,
            quotient,
            remainder,
        } => set_quotient(core, *width, *quotient, *remainder),
        Entry::Copied {
            down,
            width,
            count,
            from,
            to,
        } => {
            let elements = Elements {
                down: *down,
                width: *width,
                count: *count,
            };
            copy(core, elements, *from, *to);
        }
        Entry::Filled {
            down,
            width,
            value,
            count,
            to,
        } => {
            let elements = Elements {
                down: *down,
                width: *width,
                count: *count,
            };
            fill(core, elements, *to, *value);
        }
    }
}

/// Does what entries say, one after another, where all of them fit.
pub fn perform_all(core: &mut Core, effects: &Effects)
    ensures state { (image : Image) → effects_fit image (bytes_of core.old.memory) (all_effects effects.now) ≡ true → state_of core.new ≡ all_changed (all_effects effects.now) (state_of core.old) }
    ensures shapes { shapes core.new.memory ≡ shapes core.old.memory }
{
    match effects {
        Effects::Nothing => {}
        Effects::One(first) => perform(core, first),
        Effects::Two(first, second) => {
            perform(core, first);
            perform(core, second);
        }
    }
}
