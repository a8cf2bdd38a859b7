// Why a request isn't answered, its status, and its line.
ghost use Rattle.std.specs.Prelude.{◌≡◌, ◌≤◌, ◌++◌, ◌∷◌, OnOk, OnErr};
ghost use Rattle.std.specs.Fmt.{decimal};
ghost use Rattle.surf_base.specs.Faults.{Rose};
ghost use Rattle.surf_base.specs.Sink.{Appends, AppendsPart};
ghost use Rattle.surf_prog.specs.Once.{TellsLine, numbers_text, numbered_line, image_line, round_line};
ghost use Rattle.surf_prog.specs.Answer.{line_of, status_of};

use crate::line::Line;
use command_words::Text;
use elf32::ElfError;
use itoa::Buffer;
use std::alloc::Global;
use surf_base::{Sink, SinkFailed, hex8};

/// Why a request wasn't answered.
#[derive(Drop)]
pub enum Refusal {
    Words,
    Shelf(Text),
    TooLong(Text),
    /// The file has no image: this check fails first.
    Image(ElfError),
    /// The image isn't entered in code.
    Entry,
    /// The round of this number comes after the last.
    Round(u32),
    /// Nothing stands at the address that was named.
    Absent(u32),
    Output,
    Memory,
}

// Writes a line in three parts, up to a fault.
fn write_parts<E: Sink>(
    err: &mut E,
    front: &[u8],
    middle: &[u8],
    back: &[u8],
) -> Result<(), SinkFailed>
    ensures ok { OnOk result (Appends (E.written err.old) (E.written err.new) (front.now ++ (middle.now ++ back.now))) }
    ensures part { OnErr result (AppendsPart (E.written err.old) (E.written err.new) (front.now ++ (middle.now ++ back.now))) }
    ensures cause { OnErr result (Rose (E.faults err.old) (E.faults err.new)) }
{
    err.write(front)?;
    err.write(middle)?;
    err.write(back)
}

// Tells a line in three parts, or some beginning of it.
fn tell<E: Sink>(err: &mut E, front: &[u8], middle: &[u8], back: &[u8])
    ensures { TellsLine (E.written err.old) (E.written err.new) (E.faults err.old) (E.faults err.new) (front.now ++ (middle.now ++ back.now)) }
{
    let _ = write_parts(err, front, middle, back);
}

// Writes a number after a space, up to a fault.
fn write_number<E: Sink>(err: &mut E, number: u32) -> Result<(), SinkFailed>
    ensures ok { OnOk result (Appends (E.written err.old) (E.written err.new) (32 ∷ decimal number)) }
    ensures part { OnErr result (AppendsPart (E.written err.old) (E.written err.new) (32 ∷ decimal number)) }
    ensures cause { OnErr result (Rose (E.faults err.old) (E.faults err.new)) }
    ensures counts { E.faults err.old ≤ E.faults err.new }
{
    let mut buffer = Buffer::new();
    let digits = buffer.format(number).as_bytes();
    err.write(b" ")?;
    err.write(digits)
}

// Writes numbers, each after a space, up to a fault.
fn write_numbers<E: Sink>(err: &mut E, numbers: &[u32]) -> Result<(), SinkFailed>
    ensures ok { OnOk result (Appends (E.written err.old) (E.written err.new) (numbers_text numbers.now)) }
    ensures part { OnErr result (AppendsPart (E.written err.old) (E.written err.new) (numbers_text numbers.now)) }
    ensures cause { OnErr result (Rose (E.faults err.old) (E.faults err.new)) }
    ensures counts { E.faults err.old ≤ E.faults err.new }
{
    let mut rest = numbers;
    while let Some((number, after)) = rest.split_first() {
        write_number(err, *number)?;
        rest = after;
    }
    Ok(())
}

// Writes the line of a failing check, up to a fault.
fn write_cause<E: Sink>(err: &mut E, name: &[u8], numbers: &[u32]) -> Result<(), SinkFailed>
    ensures ok { OnOk result (Appends (E.written err.old) (E.written err.new) (numbered_line name.now numbers.now)) }
    ensures part { OnErr result (AppendsPart (E.written err.old) (E.written err.new) (numbered_line name.now numbers.now)) }
    ensures cause { OnErr result (Rose (E.faults err.old) (E.faults err.new)) }
{
    err.write(b"surf: image ")?;
    err.write(name)?;
    write_numbers(err, numbers)?;
    err.write(b"\n")
}

// Tells the line of a failing check, or some beginning of it.
fn tell_cause<E: Sink>(err: &mut E, name: &[u8], numbers: &[u32])
    ensures { TellsLine (E.written err.old) (E.written err.new) (E.faults err.old) (E.faults err.new) (numbered_line name.now numbers.now) }
{
    let _ = write_cause(err, name, numbers);
}

// Tells which check fails first.
fn complain_of_image<E: Sink>(cause: ElfError, err: &mut E)
    ensures { TellsLine (E.written err.old) (E.written err.new) (E.faults err.old) (E.faults err.new) (image_line cause) }
{
    match cause {
        ElfError::Short(length) => tell_cause(err, b"Short", &[length]),
        ElfError::Magic => tell_cause(err, b"Magic", &[]),
        ElfError::Class => tell_cause(err, b"Class", &[]),
        ElfError::Machine => tell_cause(err, b"Machine", &[]),
        ElfError::Kind => tell_cause(err, b"Kind", &[]),
        ElfError::Header(index) => tell_cause(err, b"Header", &[index]),
        ElfError::Overlap(earlier, later) => tell_cause(err, b"Overlap", &[earlier, later]),
        ElfError::Range(index) => tell_cause(err, b"Range", &[index]),
        ElfError::WritableCode(index) => tell_cause(err, b"WritableCode", &[index]),
        ElfError::Relocation(index, kind) => tell_cause(err, b"Relocation", &[index, kind]),
        ElfError::TooMany => tell_cause(err, b"TooMany", &[]),
        ElfError::Memory => tell_cause(err, b"Memory", &[]),
    }
}

// Tells which round comes after the last.
fn tell_round<E: Sink>(number: u32, err: &mut E)
    ensures { TellsLine (E.written err.old) (E.written err.new) (E.faults err.old) (E.faults err.new) (round_line number) }
{
    let mut buffer = Buffer::new();
    let digits = buffer.format(number).as_bytes();
    tell(err, b"surf: absent round ", digits, b"\n");
}

// Tells the line of a refusal piece by piece.
fn tell_refusal<E: Sink>(refusal: &Refusal, err: &mut E)
    ensures { TellsLine (E.written err.old) (E.written err.new) (E.faults err.old) (E.faults err.new) (line_of refusal.now) }
{
    match refusal {
        Refusal::Words => tell(err, b"surf: words", b"", b"\n"),
        Refusal::Shelf(name) => tell(err, b"surf: shelf ", name.as_str().as_bytes(), b"\n"),
        Refusal::TooLong(name) => tell(
            err,
            b"surf: too long ",
            name.as_str().as_bytes(),
            b" 16777216\n",
        ),
        Refusal::Image(cause) => complain_of_image(*cause, err),
        Refusal::Entry => tell(err, b"surf: absent entry", b"", b"\n"),
        Refusal::Round(number) => tell_round(*number, err),
        Refusal::Absent(at) => tell(err, b"surf: absent ", &hex8(*at), b"\n"),
        Refusal::Output => tell(err, b"surf: output", b"", b"\n"),
        Refusal::Memory => tell(err, b"surf: memory", b"", b"\n"),
    }
}

/// Tells of a refusal, in one line of the error sink: by one call, unless memory for the line is wanting.
pub fn complain<E: Sink>(alloc: Global, refusal: &Refusal, err: &mut E)
    ensures { TellsLine (E.written err.old) (E.written err.new) (E.faults err.old) (E.faults err.new) (line_of refusal.now) }
{
    let mut line = Line::new(alloc);
    tell_refusal(refusal, &mut line);
    if line.is_whole() {
        let _ = err.write(line.text());
        return;
    }
    tell_refusal(refusal, err);
}

/// The status of a refusal.
pub fn status(refusal: &Refusal) -> u8
    ensures { result ≡ status_of refusal.now }
{
    match refusal {
        Refusal::Words => 2,
        Refusal::Shelf(_) | Refusal::TooLong(_) => 3,
        Refusal::Image(_) => 4,
        Refusal::Entry | Refusal::Round(_) | Refusal::Absent(_) => 5,
        Refusal::Output => 6,
        Refusal::Memory => 7,
    }
}
