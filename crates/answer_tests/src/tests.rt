//! Replies to questions about rounds of small images, as rows of text.
ghost use Rattle.std.specs.Prelude.{◌≡◌, ◌<◌, ◌^◌, length, IfOk};
ghost use Rattle.image_map.specs.CallModel.{AreSettings};
ghost use Rattle.image_map.specs.Whole.{IsImage};

use elf32::read_image;
use image_map::{Image, Settings};
use item_list::Items;
use round_answers::{Choice, NoAnswer, NoRound, Question, answer_to, asked_round};
use std::alloc::{AllocError, Global};

/// The front of a file of one segment of code at 08049000, where it is entered, without the segment's two lengths.
const FRONT: &str = "\
7F 45 4C 46 01 01 01 00 00 00 00 00 00 00 00 00 02 00 03 00 01 00 00 00 00 90 04 08 34 00 00 00 \
00 00 00 00 00 00 00 00 34 00 20 00 01 00 00 00 00 00 00 00 01 00 00 00 54 00 00 00 00 90 04 08 \
00 90 04 08";

/// In each row: the code; the lane and the round, or `last`; the question's word, and the addresses from which and at which it asks; the
/// lines of the reply with / between them, or why there is none.
const ROWS: &str = "\
B8 05 00 00 00 BB 07 00 00 00 89 C1 01 D9 C3|2 0|slice 0 0804900c|slice 0804900c round 0 lane 2/08049000/08049005/0804900a/0804900c/end 4 addresses 0 warnings
B8 05 00 00 00 BB 07 00 00 00 89 C1 01 D9 C3|2 last|slice 0 0804900c|slice 0804900c round 1 lane 2/08049000/08049005/0804900a/0804900c/end 4 addresses 0 warnings
B8 05 00 00 00 BB 07 00 00 00 89 C1 01 D9 C3|2 7|slice 0 0804900c|behind 7
B8 05 00 00 00 BB 07 00 00 00 89 C1 01 D9 C3|2 0|slice 0 08049001|absent 08049001
B8 05 00 00 00 BB 07 00 00 00 89 C1 01 D9 C3|2 0|chop 08049001 08049002|absent 08049001
B8 05 00 00 00 BB 07 00 00 00 89 C1 01 D9 C3|2 0|chop 08049000 08049002|absent 08049002
B8 05 00 00 00 BB 07 00 00 00 89 C1 01 D9 C3|2 0|forward 0 08049000|forward 08049000 round 0 lane 2/08049000/0804900a/0804900c/end 3 addresses 0 warnings
B8 05 00 00 00 BB 07 00 00 00 89 C1 01 D9 C3|2 0|chop 0804900c 08049000|chop 0804900c 08049000 round 0 lane 2/end 0 addresses 0 warnings
B8 05 00 00 00 BB 07 00 00 00 89 C1 01 D9 C3|2 0|why 0804900c 08049000|why 0804900c 08049000 round 0 lane 2/end none 0 warnings
B8 05 00 00 00 BB 07 00 00 00 89 C1 01 D9 C3|2 0|why 08049000 08049000|why 08049000 08049000 round 0 lane 2/08049000/end 0 steps 0 warnings
85 C0 74 07 B9 01 00 00 00 EB 05 B9 02 00 00 00 89 CA 89 DE C3|2 0|why 08049000 08049010|why 08049000 08049010 round 0 lane 2/08049000/data 08049002/control 08049004/data 08049010/end 3 steps 0 warnings
85 C0 74 07 B9 01 00 00 00 EB 05 B9 02 00 00 00 89 CA 89 DE C3|2 0|forward 0 08049000|forward 08049000 round 0 lane 2/08049000/08049002/08049004/08049009/0804900b/08049010/end 6 addresses 0 warnings
BB 01 00 00 00 E8 0D 00 00 00 BB 02 00 00 00 E8 03 00 00 00 89 D9 C3 90 C3|0 0|slice-skip 0 08049014|slice 08049014 round 0 lane 0/08049000/0804900a/08049014/end 3 addresses 0 warnings
BB 01 00 00 00 E8 0D 00 00 00 BB 02 00 00 00 E8 03 00 00 00 89 D9 C3 90 C3|0 0|matched-skip 0 08049014|matched 08049014 round 0 lane 0/0804900a/08049014/end 2 addresses 0 warnings
A3 00 10 00 B0 C3|2 0|slice 0 08049000|slice 08049000 round 0 lane 2/08049000/end 1 addresses 1 warnings/warnings round 0 lane 2/warning UnknownWrite 08049000/end 1 warnings
B8 05 00 00 00 C3|2 0|values 0 08049005|values 08049005 round 0 lane 2/node 08049000 - 08049005/eax global:0[5,5]/ecx top/edx top/ebx top/esp frame.08049000:0[0,0]/ebp top/esi top/edi top/end 1 nodes 0 warnings
B8 05 00 00 00 C3|2 0|values 0 08049006|absent 08049006
B8 05 00 00 00 C3|2 0|graph 0 0|{\"control\":[],\"edges\":[],\"lane\":2,\"nodes\":[{\"at\":134516736,\"proc\":134516736,\"sites\":[]},{\"at\":134516741,\"proc\":134516736,\"sites\":[]}],\"round\":0,\"sp\":[]}
B8 05 00 00 00 C3|2 0|locations 0 0|locations round 0 lane 2/global 08049000 08049006/end 1 cells 0 warnings";

/// Writes bytes of two digits behind some bytes.
fn write(bytes: &mut Vec<u8>, text: &str) -> Result<(), AllocError> {
    for word in text.split_whitespace() {
        bytes.push(u8::from_str_radix(word, 16).unwrap_or(0))?;
    }
    Ok(())
}

/// The file of some code.
fn file_of(alloc: Global, text: &str) -> Result<Vec<u8>, AllocError> {
    let mut code = Vec::new(alloc);
    write(&mut code, text)?;
    let len = u32::try_from(code.len()).unwrap_or(0).to_le_bytes();
    let mut file = Vec::new(alloc);
    write(&mut file, FRONT)?;
    file.extend_from_slice(&len)?;
    file.extend_from_slice(&len)?;
    file.extend_from_slice(&[5, 0, 0, 0, 1, 0, 0, 0])?;
    file.extend_from_slice(&code)?;
    Ok(file)
}

fn question_of(word: &str, from: u32, at: u32) -> Question {
    let skip_sp = word.ends_with("-skip");
    match word.trim_end_matches("-skip") {
        "slice" => Question::Slice { at, skip_sp },
        "values" => Question::Values { at },
        "locations" => Question::Locations,
        "forward" => Question::Forward { at, skip_sp },
        "chop" => Question::Chop { from, at, skip_sp },
        "why" => Question::Why { from, at, skip_sp },
        "matched" => Question::Matched { at, skip_sp },
        _ => Question::Graph,
    }
}

/// The question of a row.
fn asked(text: &str) -> Question {
    let (word, rest) = text.split_once(' ').unwrap_or(("", ""));
    let (from, at) = rest.split_once(' ').unwrap_or(("", ""));
    let from = u32::from_str_radix(from, 16).unwrap_or(0);
    question_of(word, from, u32::from_str_radix(at, 16).unwrap_or(0))
}

fn choice_of(text: &str) -> Choice {
    let (lane, round) = text.split_once(' ').unwrap_or(("", ""));
    Choice {
        lane: lane.parse().unwrap_or(0),
        round: round.parse().ok(),
    }
}

/// The text of lines with / between them.
fn lines_of(alloc: Global, text: &str) -> Result<Vec<u8>, AllocError> {
    let mut lines = Vec::new(alloc);
    for line in text.split('/') {
        lines.extend_from_slice(line.as_bytes())?;
        lines.push(10)?;
    }
    Ok(lines)
}

/// What is told of a question about a round of an image that has no externs.
fn told(
    alloc: Global,
    image: &Image,
    settings: &Settings,
    choice: &Choice,
    question: &Question,
) -> Result<Vec<u8>, AllocError>
    requires image { IsImage image.now }
    requires settings { AreSettings (length image.now.externs) settings.now }
{
    let round = match asked_round(alloc, image, settings, choice) {
        Ok(round) => round,
        Err(NoRound::Behind(n)) => return Ok(format!(in alloc; "behind {n}\n")?.into_bytes()),
        Err(NoRound::Memory) => return Err(AllocError),
    };
    match answer_to(alloc, image, settings, &round, question) {
        Ok(answer) => Ok(answer.text),
        Err(NoAnswer::Absent(at)) => Ok(format!(in alloc; "absent {at:08x}\n")?.into_bytes()),
        Err(NoAnswer::Memory) => Err(AllocError),
    }
}

/// Whether a row tells the reply to its question.
fn holds(alloc: Global, row: &str) -> Result<bool, AllocError> {
    let (code, rest) = row.split_once('|').unwrap_or(("", ""));
    let (choice, rest) = rest.split_once('|').unwrap_or(("", ""));
    let (question, text) = rest.split_once('|').unwrap_or(("", ""));
    let file = file_of(alloc, code)?;
    if file.len() >= 1000 {
        return Ok(false);
    }
    let Ok(image) = read_image(alloc, &file) else {
        return Ok(false);
    };
    if image.externs.len() > 0 {
        return Ok(false);
    }
    let settings = Settings {
        entry: image.entry,
        rounds: 4,
        kinds: Items::new(alloc),
    };
    let told = told(
        alloc,
        &image,
        &settings,
        &choice_of(choice),
        &asked(question),
    )?;
    Ok(told == lines_of(alloc, text)?)
}

#[test]
fn replies(rt: HostRuntime) -> Result<(), AllocError> {
    for row in ROWS.lines() {
        assert!(rt; holds(rt.alloc(), row)?, "{row}");
    }
    Ok(())
}
