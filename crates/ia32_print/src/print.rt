// The text of an instruction, part by part.
ghost use Rattle.std.specs.Prelude.{◌≡◌, ◌==◌, ◌+◌, ◌%◌, ◌≤◌, [], ◌++◌, length, codes, if◌then◌else◌, OnOk, OnErr};
ghost use Rattle.surf_base.specs.Faults.{Rose};
ghost use Rattle.surf_base.specs.Sink.{Appends, AppendsPart};
ghost use Rattle.ia32_print.specs.Names.{reg32_name};
ghost use Rattle.ia32_print.specs.Text.{without_zeros, width_numbers, immediate_text, address_text, scale_text, segment_text, sum_text, memory_text, memory_width, number_text, source_width, operand_text, operand_texts, behind_space, instr_text};

use crate::names;
use crate::text::Text;
use ia32_types::{Instr, Mem, Op, Operand, Reg, Width};
use surf_base::{Sink, SinkFailed, hex8};

// A number's digits without the zeros in front; one digit stays.
fn significant(digits: &[u8; 8]) -> &[u8]
    ensures digits { result.now ≡ without_zeros digits.now }
    ensures short { length result.now ≤ 8 }
{
    let mut start = 0;
    while start < 7 && digits[start] == b'0' {
        start += 1;
    }
    &digits[start..]
}

// The low bits of a number that a width has.
fn at_width(width: Width, number: u32) -> u32
    ensures { result ≡ number % width_numbers width }
{
    match width {
        Width::B8 => number % 0x100,
        Width::W16 => number % 0x1_0000,
        Width::D32 => number,
    }
}

fn push_immediate(text: &mut Text, width: Width, number: u32)
    requires { length text.old ≤ 86 }
    ensures text { text.new ≡ text.old ++ immediate_text width number }
    ensures short { length text.new ≤ length text.old + 10 }
{
    text.push(b"0x");
    text.push(significant(&hex8(at_width(width, number))));
}

fn push_address(text: &mut Text, number: u32)
    requires { length text.old ≤ 86 }
    ensures text { text.new ≡ text.old ++ address_text number }
    ensures short { length text.new ≤ length text.old + 10 }
{
    text.push(b"0x");
    text.push(&hex8(number));
}

fn scale_digit(scale: u8) -> &'static [u8]
    ensures name { result.now ≡ scale_text scale }
    ensures short { length result.now ≤ 1 }
{
    match scale {
        1 => b"1",
        2 => b"2",
        4 => b"4",
        _ => b"8",
    }
}

fn push_index(text: &mut Text, index: Reg, scale: u8)
    requires { length text.old ≤ 80 }
    ensures text { text.new ≡ text.old ++ (reg32_name index ++ codes "*" ++ scale_text scale) }
    ensures short { length text.new ≤ length text.old + 5 }
{
    text.push(names::reg32(index));
    text.push(b"*");
    text.push(scale_digit(scale));
}

// A displacement behind a register, unless it is zero.
fn push_displacement(text: &mut Text, displacement: u32)
    requires { length text.old ≤ 80 }
    ensures text { text.new ≡ text.old ++ (if displacement == 0 then [] else codes "+" ++ address_text displacement) }
    ensures short { length text.new ≤ length text.old + 11 }
{
    if displacement != 0 {
        text.push(b"+");
        push_address(text, displacement);
    }
}

// The parts of an address with + between them.
fn push_sum(text: &mut Text, m: &Mem)
    requires { length text.old ≤ 70 }
    ensures text { text.new ≡ text.old ++ sum_text m.now }
    ensures short { length text.new ≤ length text.old + 20 }
{
    match (m.base, m.index) {
        (None, None) => push_address(text, m.disp),
        (Some(base), None) => {
            text.push(names::reg32(base));
            push_displacement(text, m.disp);
        }
        (None, Some(index)) => {
            push_index(text, index, m.scale);
            push_displacement(text, m.disp);
        }
        (Some(base), Some(index)) => {
            text.push(names::reg32(base));
            text.push(b"+");
            push_index(text, index, m.scale);
            push_displacement(text, m.disp);
        }
    }
}

fn segment_name(gs: bool) -> &'static [u8]
    ensures name { result.now ≡ segment_text gs }
    ensures short { length result.now ≤ 3 }
{
    if gs { b"gs:" } else { b"" }
}

fn push_memory(text: &mut Text, m: &Mem)
    requires { length text.old ≤ 60 }
    ensures text { text.new ≡ text.old ++ memory_text m.now }
    ensures short { length text.new ≤ length text.old + 25 }
{
    text.push(b"[");
    text.push(segment_name(m.gs));
    push_sum(text, m);
    text.push(b"]");
}

fn width_before(op: Op, width: Width) -> &'static [u8]
    ensures name { result.now ≡ memory_width op width }
    ensures short { length result.now ≤ 6 }
{
    match op {
        Op::Lea | Op::Nop => b"",
        _ => names::width(width),
    }
}

fn push_number(text: &mut Text, op: Op, width: Width, number: u32)
    requires { length text.old ≤ 86 }
    ensures text { text.new ≡ text.old ++ number_text op width number }
    ensures short { length text.new ≤ length text.old + 10 }
{
    match op {
        Op::Call | Op::Jmp | Op::Jcc(_) => push_address(text, number),
        _ => push_immediate(text, width, number),
    }
}

fn second_width(op: Op, width: Width) -> Width
    ensures { result ≡ source_width op width }
{
    match op {
        Op::Movzx(source) | Op::Movsx(source) => source,
        Op::Shl | Op::Shr | Op::Sar | Op::Rol | Op::Ror => Width::B8,
        _ => width,
    }
}

fn push_operand(text: &mut Text, op: Op, width: Width, operand: &Operand)
    requires { length text.old ≤ 50 }
    ensures text { text.new ≡ text.old ++ operand_text op width operand.now }
    ensures short { length text.new ≤ length text.old + 31 }
{
    match operand {
        Operand::Reg(reg) => text.push(names::reg_at(width, *reg)),
        Operand::High(reg) => text.push(names::high(*reg)),
        Operand::Imm(number) => push_number(text, op, width, *number),
        Operand::Mem(memory) => {
            text.push(width_before(op, width));
            push_memory(text, memory);
        }
    }
}

fn push_comma(text: &mut Text)
    requires { length text.old ≤ 90 }
    ensures text { text.new ≡ text.old ++ codes ", " }
    ensures short { length text.new ≤ length text.old + 2 }
{
    text.push(b", ");
}

// The operands behind a space, up to the first that isn't there.
fn push_operands(text: &mut Text, i: &Instr)
    requires { length text.old ≤ 10 }
    ensures { text.new ≡ text.old ++ behind_space (operand_texts i.now.op i.now.width i.now.dst i.now.src i.now.imm) }
{
    let Some(first) = &i.dst else {
        return;
    };
    text.push(b" ");
    push_operand(text, i.op, i.width, first);
    let Some(second) = &i.src else {
        return;
    };
    push_comma(text);
    push_operand(text, i.op, second_width(i.op, i.width), second);
    let Some(third) = i.imm else {
        return;
    };
    push_comma(text);
    push_immediate(text, i.width, third);
}

/// The text of an instruction: its mnemonic and, behind a space, its operands with commas between them.
pub fn print_instr(i: &Instr) -> Text
    ensures { result ≡ instr_text i.now }
{
    let mut text = Text::new();
    let name = names::name_of(i.op, i.width);
    text.push(name.stem);
    text.push(name.ending);
    push_operands(&mut text, i);
    text
}

/// Writes the text of an instruction by one call of `write`. It takes no memory.
pub fn write_instr<K: Sink>(i: &Instr, sink: &mut K) -> Result<(), SinkFailed>
    ensures appended { OnOk result (Appends (K.written sink.old) (K.written sink.new) (instr_text i.now)) }
    ensures part { OnErr result (AppendsPart (K.written sink.old) (K.written sink.new) (instr_text i.now)) }
    ensures cause { OnErr result (Rose (K.faults sink.old) (K.faults sink.new)) }
    ensures counts { K.faults sink.old ≤ K.faults sink.new }
{
    sink.write(print_instr(i).as_slice())
}
