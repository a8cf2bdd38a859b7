//! What the words ask for.
use crate::text::Text;
use image_map::Kind;
use item_list::Items;
use std::alloc::AllocError;

/// What the program is to do. A file is given by its name, and an address by its number.
#[derive(Debug, Drop)]
pub enum Task {
    /// The backward slice at an address.
    Slice { image: Text, at: u32 },
    /// The values of the registers at an address.
    Values { image: Text, at: u32 },
    /// The cells of memory.
    Locations { image: Text },
    /// The graph of dependences.
    Graph { image: Text },
    /// The instructions from an address on, or from the entry on.
    List { image: Text, at: Option<u32> },
    /// One run of the machine, and what the last occurrence of an address depends on.
    Trace { image: Text, at: Option<u32> },
    /// An image that is made of so many items.
    Gen { seed: u32, items: u32 },
    /// The sessions of a script.
    Serve { image: Text, script: Text },
    /// What an address may have an effect on.
    Forward { image: Text, at: u32 },
    /// What lies between two addresses.
    Chop { image: Text, from: u32, at: u32 },
    /// A path between two addresses.
    Why { image: Text, from: u32, at: u32 },
    /// The backward slice at an address, along calls that match their returns.
    Matched { image: Text, at: u32 },
    /// A recorded run, and whether the slice lists what it depends on.
    Replay { image: Text, trace: Text, at: u32 },
    /// The sessions of a script, over a list of images.
    ServeAll { list: Text, script: Text },
}

/// Where a program is entered.
#[derive(Debug, Drop)]
pub enum Entry {
    Address(u32),
    /// At the symbol of this name.
    Symbol(Text),
}

/// The kind of the externs with a name.
#[derive(Debug, Drop)]
pub struct ExternKind {
    pub name: Text,
    pub kind: Kind,
}

/// The options that count for more than one task.
#[derive(Debug, Drop)]
pub struct Options {
    /// Where the program is entered, if not where its file says.
    pub entry: Option<Entry>,
    /// The length of call strings.
    pub lane: u32,
    /// The round that is asked, if not the last.
    pub round: Option<u32>,
    /// The greatest number of rounds.
    pub rounds: u32,
    /// Whether dependences by ESP alone are left out.
    pub skip_sp: bool,
    pub sessions: u32,
    pub refiners: u32,
    /// The greatest number of steps of a run, or of instructions of a list.
    pub steps: u32,
    /// What the choices of a run are drawn from.
    pub seed: u32,
    /// Of parts with one name the last counts.
    pub externs: Items<ExternKind>,
}

/// What all the words ask for.
#[derive(Debug, Drop)]
pub struct CommandLine {
    pub task: Task,
    pub options: Options,
}

/// Why words weren't read.
#[derive(Clone, Copy, Debug, PartialEq, Eq)]
pub enum WordsError {
    /// They are outside the grammar.
    Refused,
    Memory,
}

impl From<AllocError> for WordsError {
    ghost use Rattle.std.specs.Prelude.{◌≡◌};
    ghost use Rattle.command_words.specs.declared.line.WordsError.TheVariants.{Memory};

    ghost from_gives = { λ _ e. e ≡ Memory };

    fn from(_: AllocError) -> Self {
        WordsError::Memory
    }
}
