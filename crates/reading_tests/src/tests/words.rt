//! Command lines, each word up to a space, and whether they are within the grammar.

use command_words::{CommandLine, WordsError, parse};
use std::alloc::{AllocError, Global};

/// Lines, and whether they are read.
const LINES: &str = "slice a --at 0x1 = yes
--at 0x1 slice a = yes
slice --at=0xFFFFffff a --round 0 = yes
values a --at 0x00000001 --round=7 = yes
locations a --lane 0000000003 = yes
graph - --refiners 0 --rounds 8 --sessions 8 = yes
list a = yes
list a --steps 65536 --at 0x0 --skip-sp = yes
trace a --seed 4294967295 --extern  = yes
trace a --extern x:pure0,y:reader08,z:fills18,x:alloc,-:stop = yes
gen 04294967 1000 = yes
serve a b = yes
forward a --at 0x1 = yes
chop a --at 0x1 --from 0x2 = yes
why a --from=0x2 --at 0x1 = yes
matched a --at 0x1 --from 0x2 = yes
replay a t --at 0x1 = yes
serve-all l s = yes
slice --at 0x1 -- -a = yes
-- list --at = yes
list  --entry= = yes
 = no
nothing a = no
slice a = no
slice a --at 0x1 --lane 4 = no
slice a --at 12 = no
slice a --at 0x = no
slice a --at 0x123456789 = no
slice a --at 0X1 = no
slice a --at +0x1 = no
slice a --at 0x1 --at 0x1 = no
slice a --at 0x1 --round 8 = no
slice a --at 0x1 --lane +1 = no
slice a --at 0x1 --lane  = no
slice a --at 0x1 --lane 00000000001 = no
list a --skip-sp=1 = no
list a --steps 0 = no
list a --steps 65537 = no
list a --step 1 = no
list a -s = no
list a --entry 0xg = no
list a --at = no
list a b = no
list = no
list a b c = no
gen 4294967296 1 = no
gen 1 1001 = no
replay a --at 0x1 = no
chop a --at 0x1 = no
trace a --extern x:pure9 = no
trace a --extern x:alloc, = no
trace a --extern :alloc = no
list a --entry main --entry= = no";

/// A line with each option, and the options that a line has by itself.
const WHOLE: &str =
    r#"slice --lane=3 a --at 0x0804900C --entry main --round 5 --rounds 6 --skip-sp --sessions 2 --refiners 4 --steps 9 --seed 8 --extern=x:reader7,y:fills12 = Ok(CommandLine { task: Slice { image: Text { text: "a" }, at: 134516748 }, options: Options { entry: Some(Symbol(Text { text: "main" })), lane: 3, round: Some(5), rounds: 6, skip_sp: true, sessions: 2, refiners: 4, steps: 9, seed: 8, externs: Items { items: [ExternKind { name: Text { text: "x" }, kind: Reader(7) }, ExternKind { name: Text { text: "y" }, kind: Fills(1, 2) }] } } })
gen 7 1000 --at 0x1 = Ok(CommandLine { task: Gen { seed: 7, items: 1000 }, options: Options { entry: None, lane: 2, round: None, rounds: 4, skip_sp: false, sessions: 1, refiners: 1, steps: 1000, seed: 1, externs: Items { items: [] } } })"#;

fn read(alloc: Global, line: &str) -> Result<Result<CommandLine, WordsError>, AllocError> {
    let mut words = Vec::new(alloc);
    for word in line.split(' ') {
        words.push(String::from_str(alloc, word)?)?;
    }
    Ok(parse(alloc, &words))
}

/// Whether a row tells how its line is read.
fn holds(alloc: Global, row: &str) -> Result<bool, AllocError> {
    let Some((line, told)) = row.split_once(" = ") else {
        return Ok(false);
    };
    Ok(match read(alloc, line)? {
        Ok(_) => told == "yes",
        Err(WordsError::Refused) => told == "no",
        Err(WordsError::Memory) => false,
    })
}

#[test]
fn lines(rt: HostRuntime) -> Result<(), AllocError> {
    for row in LINES.lines() {
        assert!(rt; holds(rt.alloc(), row)?, "{row}");
    }
    Ok(())
}

#[test]
fn options(rt: HostRuntime) -> Result<(), AllocError> {
    for row in WHOLE.lines() {
        let (line, told) = row.split_once(" = ").unwrap_or(("", ""));
        let read = read(rt.alloc(), line)?;
        let text = format!(in rt.alloc(); "{read:?}")?;
        assert_eq!(rt; text.as_str(), told);
    }
    Ok(())
}
