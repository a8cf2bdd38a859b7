//! What each task needs.
ghost use Rattle.std.specs.Prelude.{◌≡◌};
ghost use Rattle.command_words.specs.Tasks.{op_of as op_spec, task_of_one as task_of_one_spec, task_of_two as task_of_two_spec, task_of as task_spec};

use crate::line::Task;
use crate::text::Text;
use crate::values::number;

/// The name of a task.
#[derive(Clone, Copy)]
pub enum Op {
    Slice,
    Values,
    Locations,
    Graph,
    List,
    Trace,
    Gen,
    Serve,
    Forward,
    Chop,
    Why,
    Matched,
    Replay,
    ServeAll,
}

/// The task that a word names.
#[tactic(auto, unfolding(crate::specs::Tasks::op_of))]
pub fn op_of(word: &str) -> Option<Op>
    ensures { result ≡ op_spec word.now }
{
    match word {
        "slice" => Some(Op::Slice),
        "values" => Some(Op::Values),
        "locations" => Some(Op::Locations),
        "graph" => Some(Op::Graph),
        "list" => Some(Op::List),
        "trace" => Some(Op::Trace),
        "gen" => Some(Op::Gen),
        "serve" => Some(Op::Serve),
        "forward" => Some(Op::Forward),
        "chop" => Some(Op::Chop),
        "why" => Some(Op::Why),
        "matched" => Some(Op::Matched),
        "replay" => Some(Op::Replay),
        "serve-all" => Some(Op::ServeAll),
        _ => None,
    }
}

// A task with one word more.
fn task_of_one(op: Op, image: Text, at: Option<u32>, from: Option<u32>) -> Option<Task>
    ensures { result ≡ task_of_one_spec op image at from }
{
    match op {
        Op::Slice => Some(Task::Slice { image, at: at? }),
        Op::Values => Some(Task::Values { image, at: at? }),
        Op::Locations => Some(Task::Locations { image }),
        Op::Graph => Some(Task::Graph { image }),
        Op::List => Some(Task::List { image, at }),
        Op::Trace => Some(Task::Trace { image, at }),
        Op::Forward => Some(Task::Forward { image, at: at? }),
        Op::Chop => Some(Task::Chop {
            image,
            from: from?,
            at: at?,
        }),
        Op::Why => Some(Task::Why {
            image,
            from: from?,
            at: at?,
        }),
        Op::Matched => Some(Task::Matched { image, at: at? }),
        Op::Gen | Op::Serve | Op::Replay | Op::ServeAll => None,
    }
}

// A task with two words more.
fn task_of_two(op: Op, first: Text, second: Text, at: Option<u32>) -> Option<Task>
    ensures { result ≡ task_of_two_spec op first second at }
{
    match op {
        Op::Gen => Some(Task::Gen {
            seed: number(first.as_str(), 0, u32::MAX)?,
            items: number(second.as_str(), 1, 1000)?,
        }),
        Op::Serve => Some(Task::Serve {
            image: first,
            script: second,
        }),
        Op::ServeAll => Some(Task::ServeAll {
            list: first,
            script: second,
        }),
        Op::Replay => Some(Task::Replay {
            image: first,
            trace: second,
            at: at?,
        }),
        _ => None,
    }
}

/// The task of a name, the words that follow it, and the addresses that were given.
pub fn task_of(
    op: Op,
    first: Option<Text>,
    second: Option<Text>,
    at: Option<u32>,
    from: Option<u32>,
) -> Option<Task>
    ensures { result ≡ task_spec op first second at from }
{
    match first {
        None => None,
        Some(first) => match second {
            None => task_of_one(op, first, at, from),
            Some(second) => task_of_two(op, first, second, at),
        },
    }
}
