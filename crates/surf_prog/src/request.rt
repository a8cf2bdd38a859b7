// One request, from the words to the sinks.
ghost use Rattle.std.specs.Prelude.{◌≡◌, ◌≢◌, ◌≤◌, ◌⊎◌, ◌↔◌, true, false, None, length, map, IfOk, IfErr, IfSome};
ghost use Rattle.std.specs.String.{string_bytes};
ghost use Rattle.image_map.specs.Queries.{is_code};
ghost use Rattle.image_map.specs.Whole.{IsImage};
ghost use Rattle.elf32.specs.declared.error.ElfError.{ElfError as Cause};
ghost use Rattle.elf32.specs.Loading.{Loads, failure};
ghost use Rattle.surf_base.specs.Faults.{Rose};
ghost use Rattle.surf_base.specs.Shelf.{IsLonger};
ghost use Rattle.surf_base.specs.Sink.{Appends, WritesLines, StopsInLine};
ghost use Rattle.surf_prog.specs.declared.words.Task.TheVariants as kinds;
ghost use Rattle.surf_prog.specs.Once.{image_limit, first_place as place_of_first, ForAsked, OfAskedFile, AsksNothing, OfImage, HasReply, IsWarned, HasNoImage, LacksReply, WritesReply, WasRead, IsAnswered, IsStatus, WritesNothing, TellsLine, shelf_line, too_long_line, ErrorLines};
ghost use Rattle.surf_prog.specs.RunReply.{WritesDependences};
ghost use Rattle.surf_prog.specs.Answer.{TellsAt, Tells, FindsEntry, IsNoImage, Answers, answered as answered_spec};

use crate::dynamic::Traced;
use crate::entry::entry_place;
use crate::list::listing;
use crate::refusal::{Refusal, complain, status};
use crate::settings::settings_of;
use crate::tracing::tracing;
use crate::words::{Plan, Query, Request, RunOptions, Task, request_of};
use command_words::{Entry, WordsError};
use elf32::{ElfError, read_image};
use image_map::Image;
use round_answers::{Answer, NoAnswer, NoRound, Question, answer_to, asked_round};
use std::alloc::{AllocError, Global};
use surf_base::{Shelf, ShelfError, Sink, write_lines};

/// The greatest length of a file that is read, in bytes.
const IMAGE_LIMIT: u32 = 16_777_216;

// Why a file doesn't answer what is asked.
#[derive(Clone, Copy)]
enum NoReply {
    /// It has no image: this check fails first.
    Image(ElfError),
    /// It isn't entered in code.
    Entry,
    /// The round of this number comes after the last.
    Round(u32),
    /// Nothing stands at the address that was named.
    Absent(u32),
    Memory,
}

impl From<AllocError> for NoReply {
    ghost use Rattle.std.specs.Prelude.{◌≡◌};
    ghost use Rattle.surf_prog.specs.declared.request.NoReply.TheVariants.{Memory};

    ghost from_gives = { λ _ e. e ≡ Memory };

    fn from(_: AllocError) -> Self {
        NoReply::Memory
    }
}

impl From<NoRound> for NoReply {
    ghost use Rattle.std.specs.Prelude.{◌≡◌};
    ghost use Rattle.surf_prog.specs.Answer.{no_round};

    ghost from_gives = { λ none e. e ≡ no_round none };

    fn from(none: NoRound) -> Self {
        match none {
            NoRound::Behind(number) => NoReply::Round(number),
            NoRound::Memory => NoReply::Memory,
        }
    }
}

impl From<NoAnswer> for NoReply {
    ghost use Rattle.std.specs.Prelude.{◌≡◌};
    ghost use Rattle.surf_prog.specs.Answer.{no_answer};

    ghost from_gives = { λ none e. e ≡ no_answer none };

    fn from(none: NoAnswer) -> Self {
        match none {
            NoAnswer::Absent(at) => NoReply::Absent(at),
            NoAnswer::Memory => NoReply::Memory,
        }
    }
}

// The place in code where an image is entered.
fn found_entry(image: &Image, entry: &Option<Entry>) -> Result<u32, NoReply>
    ensures { FindsEntry image.now entry.now result }
{
    match entry_place(image, entry) {
        None => Err(NoReply::Entry),
        Some(place) => {
            if !image.is_code(place) {
                return Err(NoReply::Entry);
            }
            Ok(place)
        }
    }
}

// The reply to a question on a round of an image that is entered at this place.
fn round_reply(
    alloc: Global,
    image: &Image,
    place: u32,
    plan: &Plan,
    question: &Question,
) -> Result<Answer, NoReply>
    requires { IsImage image.now }
    ensures { TellsAt image.now place (kinds.Ask plan.now question.now) result }
{
    let settings = settings_of(alloc, image, place, plan.rounds, plan.externs.as_slice())?;
    let round = asked_round(alloc, image, &settings, &plan.choice)?;
    let answer = answer_to(alloc, image, &settings, &round, question)?;
    Ok(answer)
}

// A reply that warns of nothing.
fn plain(text: Vec<u8>) -> Answer
    ensures text { result.text ≡ text }
    ensures calm { result.is_warned ≡ false }
{
    Answer {
        text,
        is_warned: false,
    }
}

// Where a list begins.
fn first_place(place: u32, from: Option<u32>) -> u32
    ensures { result ≡ place_of_first place from }
{
    match from {
        Some(at) => at,
        None => place,
    }
}

// The list of the instructions of an image that is entered at this place.
fn list_reply(
    alloc: Global,
    image: &Image,
    place: u32,
    from: Option<u32>,
    steps: u32,
) -> Result<Answer, NoReply>
    requires { is_code image.now place ≡ true }
    ensures { TellsAt image.now place (kinds.List from steps) result }
{
    let first = first_place(place, from);
    if !image.is_code(first) {
        return Err(NoReply::Absent(first));
    }
    Ok(plain(listing(alloc, image, first, steps)?))
}

// The text of a run of an image that is entered at this place.
fn trace_reply(
    alloc: Global,
    image: &Image,
    place: u32,
    options: &RunOptions,
) -> Result<Answer, NoReply>
    requires { IsImage image.now }
    ensures { TellsAt image.now place (kinds.Trace options.now) result }
{
    match tracing(alloc, image, place, options)? {
        Traced::Text(text) => Ok(plain(text)),
        Traced::Never(at) => Err(NoReply::Absent(at)),
    }
}

// The image of a file.
fn image_of(alloc: Global, file: &[u8]) -> Result<Image, NoReply>
    requires { length file.now ≤ image_limit }
    ensures loads { IfOk result (λ image. Loads file.now image) }
    ensures image { IfOk result (λ image. IsImage image) }
    ensures cause { IfErr result (λ none. IsNoImage file.now none) }
{
    match read_image(alloc, file) {
        Ok(image) => Ok(image),
        Err(ElfError::Memory) => Err(NoReply::Memory),
        Err(cause) => Err(NoReply::Image(cause)),
    }
}

// The reply to a task of an image that is entered at this place.
fn task_reply(alloc: Global, image: &Image, place: u32, task: &Task) -> Result<Answer, NoReply>
    requires image { IsImage image.now }
    requires enters { is_code image.now place ≡ true }
    ensures { TellsAt image.now place task.now result }
{
    match task {
        Task::Ask { plan, question } => round_reply(alloc, image, place, plan, question),
        Task::List { from, steps } => list_reply(alloc, image, place, *from, *steps),
        Task::Trace { options } => trace_reply(alloc, image, place, options),
    }
}

// The reply to what is asked of a file.
fn reply(alloc: Global, file: &[u8], query: &Query) -> Result<Answer, NoReply>
    requires { length file.now ≤ image_limit }
    ensures { Tells file.now query.now result }
{
    let image = image_of(alloc, file)?;
    let place = found_entry(&image, &query.entry)?;
    task_reply(alloc, &image, place, &query.task)
}

impl From<NoReply> for Refusal {
    ghost use Rattle.std.specs.Prelude.{◌≡◌};
    ghost use Rattle.surf_prog.specs.Answer.{refusal_of};

    ghost from_gives = { λ none refusal. refusal ≡ refusal_of none };

    fn from(none: NoReply) -> Self {
        match none {
            NoReply::Image(cause) => Refusal::Image(cause),
            NoReply::Entry => Refusal::Entry,
            NoReply::Round(number) => Refusal::Round(number),
            NoReply::Absent(at) => Refusal::Absent(at),
            NoReply::Memory => Refusal::Memory,
        }
    }
}

impl From<WordsError> for Refusal {
    ghost use Rattle.std.specs.Prelude.{◌≡◌};
    ghost use Rattle.surf_prog.specs.Answer.{words_refusal};

    ghost from_gives = { λ error refusal. refusal ≡ words_refusal error };

    fn from(error: WordsError) -> Self {
        match error {
            WordsError::Refused => Refusal::Words,
            WordsError::Memory => Refusal::Memory,
        }
    }
}

// Answers the request, up to the output: whether the reply warns.
fn answer<F: Shelf, K: Sink>(
    alloc: Global,
    words: &[String],
    shelf: &mut F,
    out: &mut K,
) -> Result<bool, Refusal>
    ensures { Answers (map string_bytes words.now) (F.file shelf.old) (F.faults shelf.old) (F.faults shelf.new)
        (K.written out.old) (K.written out.new) (λ text. WritesLines K.written K.faults out.old text out.new) (λ text. StopsInLine K.written K.faults out.old text out.new)
        (K.faults out.old) (K.faults out.new) result }
{
    let Request { name, query } = match request_of(alloc, words) {
        Ok(request) => request,
        Err(error) => return Err(Refusal::from(error)),
    };
    let file = match shelf.read(alloc, name.as_str(), IMAGE_LIMIT) {
        Ok(file) => file,
        Err(ShelfError::Failed) => return Err(Refusal::Shelf(name)),
        Err(ShelfError::TooLong(_)) => return Err(Refusal::TooLong(name)),
        Err(ShelfError::Memory) => return Err(Refusal::Memory),
    };
    let answer = match reply(alloc, &file, &query) {
        Ok(answer) => answer,
        Err(none) => return Err(Refusal::from(none)),
    };
    match write_lines(&answer.text, out) {
        Ok(()) => Ok(answer.is_warned),
        Err(_) => Err(Refusal::Output),
    }
}

// The status of a reply that was written.
fn answered(is_warned: bool) -> u8
    ensures { result ≡ answered_spec is_warned }
{
    if is_warned { 1 } else { 0 }
}

/// Answers the request of the words, with files from the shelf: writes the reply to `out`, or one line that tells of a
/// refusal to `err`, and gives the status. The first that holds refuses, in the order of the statuses' list in the README.
pub fn once<F: Shelf, K: Sink, E: Sink>(
    alloc: Global,
    words: &[String],
    shelf: &mut F,
    out: &mut K,
    err: &mut E,
) -> u8
    ensures statuses { IsStatus result }

    // At status 0 and 1 the whole reply was appended.
    ensures text { IsAnswered result → WritesReply (map string_bytes words.now) (F.file shelf.old) (λ text. Appends (K.written out.old) (K.written out.new) text) }

    // It was written by one call a line.
    ensures lines { IsAnswered result → WritesReply (map string_bytes words.now) (F.file shelf.old) (λ text. WritesLines K.written K.faults out.old text out.new) }

    // At status 0 the reply tells of each run of the file's image: wherever an occurrence depends on another, a slice of the one's address
    // has the other's, and a forward slice, a chop and a path tell of it likewise.
    ensures dependences { result ≡ 0 → WritesDependences (map string_bytes words.now) (F.file shelf.old) (K.written out.old) (K.written out.new) }

    // 1 exactly where the round that was asked for has warnings.
    ensures warned { IsAnswered result → OfAskedFile (map string_bytes words.now) (F.file shelf.old) (λ file query. OfImage file (λ image. (result ≡ 1) ↔ IsWarned image query)) }

    // 2 only where the words ask for nothing, and where they do, 2 or 7: memory may be wanting before they are read.
    ensures bad_words { result ≡ 2 → AsksNothing (map string_bytes words.now) }
    ensures nothing_asked { AsksNothing (map string_bytes words.now) → (result ≡ 2) ⊎ (result ≡ 7) }

    // 3 only where the shelf's count for the name rose, or the file is longer than the limit.
    ensures shelf { result ≡ 3 → ForAsked (map string_bytes words.now) (λ name query.
        (Rose (F.faults shelf.old name) (F.faults shelf.new name) × TellsLine (E.written err.old) (E.written err.new) (E.faults err.old) (E.faults err.new) (shelf_line name))
        ⊎ (IsLonger (F.file shelf.old name) image_limit × TellsLine (E.written err.old) (E.written err.new) (E.faults err.old) (E.faults err.new) (too_long_line name))) }
    ensures within { WasRead result → OfAskedFile (map string_bytes words.now) (F.file shelf.old) (λ file query. length file ≤ image_limit) }

    // 4 exactly where the file was read and some check of it fails.
    ensures image { WasRead result → OfAskedFile (map string_bytes words.now) (F.file shelf.old) (λ file query. (result ≡ 4) ↔ ((cause : Cause) × HasNoImage file cause)) }

    // 5 exactly where it has an image, and the entry isn't code, or it is and the round comes after the last, or it doesn't and nothing
    // stands at the address that is named, or a run never comes to it.
    ensures absent { WasRead result → OfAskedFile (map string_bytes words.now) (F.file shelf.old) (λ file query.
        failure file ≡ None → OfImage file (λ image. (result ≡ 5) ↔ LacksReply image query)) }

    // 6 only where the output's count rose: a call for some line failed, after one for each line before it.
    ensures output { result ≡ 6 → Rose (K.faults out.old) (K.faults out.new) }
    ensures part { result ≡ 6 → WritesReply (map string_bytes words.now) (F.file shelf.old) (λ text. StopsInLine K.written K.faults out.old text out.new) }

    // Nothing is written before the last step.
    ensures untouched { WritesNothing result (K.written out.old) (K.written out.new) }

    // A reply that there is comes unless memory is wanting.
    ensures complete { ForAsked (map string_bytes words.now) (λ name query. IfSome (F.file shelf.old name) (λ file.
        length file ≤ image_limit → failure file ≡ None → ¬ Rose (F.faults shelf.old name) (F.faults shelf.new name) → ¬ Rose (K.faults out.old) (K.faults out.new)
        → (result ≡ 7) ⊎ OfImage file (λ image. HasReply image query → IsAnswered result))) }

    // The line of the status, or some beginning of it where the count of `err` rose.
    ensures error_line { ErrorLines (map string_bytes words.now) (F.file shelf.old) result (E.written err.old) (E.written err.new) (E.faults err.old) (E.faults err.new) }
{
    match answer(alloc, words, shelf, out) {
        Ok(is_warned) => answered(is_warned),
        Err(refusal) => {
            complain(alloc, &refusal, err);
            status(&refusal)
        }
    }
}
