// What the words ask of this program.
ghost use Rattle.std.specs.Prelude.{◌≡◌, map};
ghost use Rattle.std.specs.String.{string_bytes};
ghost use Rattle.command_words.specs.Reading.{Tells};
ghost use Rattle.surf_prog.specs.Words.{round_asked as round_spec, list_asked as list_spec, trace_asked as trace_spec, line_asked as line_spec, request_of as request_spec};

use command_words::{CommandLine, Entry, ExternKind, Options, Text, WordsError, parse};
use item_list::Items;
use round_answers::{Choice, Question};
use std::alloc::Global;

/// What is asked of a program that is entered at a place of its code.
#[derive(Drop)]
pub enum Task {
    /// A question on a round of its analysis.
    Ask { plan: Plan, question: Question },
    /// The instructions from an address on, or from the entry on, at most so many.
    List { from: Option<u32>, steps: u32 },
    /// One run of the machine.
    Trace { options: RunOptions },
}

/// Which round of which analysis is asked.
#[derive(Drop)]
pub struct Plan {
    /// How many call sites nodes keep, and the number of the round, if it isn't the last.
    pub choice: Choice,
    /// The greatest number of rounds.
    pub rounds: u32,
    /// The kinds of externs; of parts with one name the last counts.
    pub externs: Items<ExternKind>,
}

/// How a program is run.
#[derive(Drop)]
pub struct RunOptions {
    /// The address whose last step is sliced, if one is.
    pub at: Option<u32>,
    /// Whether dependences by ESP are left out.
    pub skip_sp: bool,
    /// The greatest number of steps.
    pub steps: u32,
    /// What the choices are drawn from.
    pub seed: u32,
    /// The kinds of externs; of parts with one name the last counts.
    pub externs: Items<ExternKind>,
}

/// What is asked of a file's program.
#[derive(Drop)]
pub struct Query {
    /// Where the program is entered, if not where its file says.
    pub entry: Option<Entry>,
    pub task: Task,
}

/// What the words ask for.
#[derive(Drop)]
pub struct Request {
    /// The file's name.
    pub name: Text,
    pub query: Query,
}

fn round_asked(image: Text, question: Question, options: Options) -> Request
    ensures { result ≡ round_spec image question options }
{
    let plan = Plan {
        choice: Choice {
            lane: options.lane,
            round: options.round,
        },
        rounds: options.rounds,
        externs: options.externs,
    };
    let task = Task::Ask { plan, question };
    let query = Query {
        entry: options.entry,
        task,
    };
    Request { name: image, query }
}

fn list_asked(image: Text, from: Option<u32>, options: Options) -> Request
    ensures { result ≡ list_spec image from options }
{
    let task = Task::List {
        from,
        steps: options.steps,
    };
    let query = Query {
        entry: options.entry,
        task,
    };
    Request { name: image, query }
}

fn trace_asked(image: Text, at: Option<u32>, options: Options) -> Request
    ensures { result ≡ trace_spec image at options }
{
    let run = RunOptions {
        at,
        skip_sp: options.skip_sp,
        steps: options.steps,
        seed: options.seed,
        externs: options.externs,
    };
    let query = Query {
        entry: options.entry,
        task: Task::Trace { options: run },
    };
    Request { name: image, query }
}

// What a task and its options ask for, if there is such a task.
fn line_asked(line: CommandLine) -> Option<Request>
    ensures { result ≡ line_spec line }
{
    let CommandLine { task, options } = line;
    let skip_sp = options.skip_sp;
    let (image, question) = match task {
        command_words::Task::List { image, at } => return Some(list_asked(image, at, options)),
        command_words::Task::Trace { image, at } => return Some(trace_asked(image, at, options)),
        command_words::Task::Slice { image, at } => (image, Question::Slice { at, skip_sp }),
        command_words::Task::Values { image, at } => (image, Question::Values { at }),
        command_words::Task::Locations { image } => (image, Question::Locations),
        command_words::Task::Graph { image } => (image, Question::Graph),
        command_words::Task::Forward { image, at } => (image, Question::Forward { at, skip_sp }),
        command_words::Task::Chop { image, from, at } => {
            (image, Question::Chop { from, at, skip_sp })
        }
        command_words::Task::Why { image, from, at } => {
            (image, Question::Why { from, at, skip_sp })
        }
        command_words::Task::Matched { image, at } => (image, Question::Matched { at, skip_sp }),
        _ => return None,
    };
    Some(round_asked(image, question, options))
}

/// What the words ask for. They are refused only where they ask for nothing; where they do, memory may want first.
pub fn request_of(alloc: Global, words: &[String]) -> Result<Request, WordsError>
    ensures { Tells result (request_spec (map string_bytes words.now)) }
{
    match parse(alloc, words) {
        Err(error) => Err(error),
        Ok(line) => match line_asked(line) {
            None => Err(WordsError::Refused),
            Some(request) => Ok(request),
        },
    }
}
