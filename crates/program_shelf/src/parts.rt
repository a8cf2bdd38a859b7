//! What a script asks of one of several programs.
ghost use Rattle.std.specs.Prelude.{◌≡◌, ◌∷◌, ◌++◌, [], IfOk, OnOk, if◌then◌else◌};
ghost use Rattle.program_shelf.specs.Part.{
  program_after as program_after_spec,
  program_of as program_of_spec,
  is_program as is_program_spec,
  is_of as is_of_spec,
  part as part_spec,
};

use item_list::Items;
use requests::{Request, Script};
use std::alloc::{AllocError, Global};

// A session's program after one more line.
fn program_after(session: u32, before: u32, line: (u32, Request)) -> u32
    ensures { result ≡ program_after_spec session before line }
{
    match line {
        (asker, Request::Program(program)) if asker == session => program,
        _ => before,
    }
}

// A session's program after these lines.
fn program_of(lines: &[(u32, Request)], session: u32) -> u32
    ensures { result ≡ program_of_spec lines.now session }
{
    lines
        .iter()
        .fold(1, |program, line| program_after(session, program, *line))
}

fn is_program(request: Request) -> bool
    ensures { result ≡ is_program_spec request }
{
    matches!(request, Request::Program(_))
}

// Whether the line after these asks something of the program.
fn is_of(program: u32, before: &[(u32, Request)], line: (u32, Request)) -> bool
    ensures { result ≡ is_of_spec program before.now line }
{
    !is_program(line.1) && program_of(before, line.0) == program
}

// Puts a line at the end, if it is wanted.
fn keep(
    lines: &mut Items<(u32, Request)>,
    line: (u32, Request),
    wanted: bool,
) -> Result<(), AllocError>
    ensures { OnOk result (lines.new ≡ lines.old ++ (if wanted then line ∷ [] else [])) }
{
    if wanted {
        lines.push(line)?;
    }
    Ok(())
}

/// What the script asks of a program: the lines that stand where it is the program of their session, but for those that ask
/// for a program. A session begins with the program with number 1.
pub fn part(alloc: Global, script: &Script, program: u32) -> Result<Script, AllocError>
    ensures part { IfOk result (λ part. part.lines ≡ part_spec program script.now.lines) }
{
    let all = script.lines.as_slice();
    let mut lines = Items::new(alloc);
    for i in 0..all.len() {
        let line = all[i];
        let wanted = is_of(program, &all[..i], line);
        keep(&mut lines, line, wanted)?;
    }
    Ok(Script { lines })
}
