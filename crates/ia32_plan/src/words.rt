//! The words of choice that an instruction takes, and the bytes that it reads.

ghost use Rattle.std.specs.Prelude.{◌≡◌, ℕ, ◌+◌, ◌≤◌, [], ◌∷◌, length, MatchOption};
ghost use Rattle.ia32_plan.specs.Views.{words_left, addresses_read, read_before, read_count};

use ia32_types::Width;

/// A number read from memory: where its lowest byte stands, and how wide it is.
#[derive(Clone, Copy, Debug, PartialEq, Eq)]
pub struct Read {
    pub at: u32,
    pub width: Width,
}

/// The numbers that an instruction read from memory, in their order: two at most. Elements that a string instruction
/// copies aren't among them.
#[derive(Clone, Copy, Debug, PartialEq, Eq)]
pub enum Reads {
    Nothing,
    One(Read),
    Two(Read, Read),
}

/// Words of choice, which stand for all that may be any in an instruction: its undefined flags, in the order of the
/// flags, and then its word of GS. Beside them the bytes that the instruction read.
#[derive(Clone, Copy, Debug)]
pub struct Words {
    words: [u32; 8],
    used: usize,
    reads: Reads,
}

impl Words {
    /// Words of which none is used.
    pub fn new(words: [u32; 8]) -> Words
        ensures words { words_left result ≡ words }
        ensures reads { result.reads ≡ Reads.Nothing }
    {
        Words {
            words,
            used: 0,
            reads: Reads::Nothing,
        }
    }

    /// How many words were used.
    pub fn used(&self) -> usize
        ensures { result + length (words_left self.now) ≡ 8 }
    {
        self.used.min(self.words.len())
    }

    /// What the last instruction that was planned with these words read from memory.
    pub fn reads(&self) -> Reads
        ensures { result ≡ self.now.reads }
    {
        self.reads
    }

    /// Forgets what was read.
    pub(crate) fn forget_reads(&mut self)
        ensures words { words_left self.new ≡ words_left self.old }
        ensures reads { self.new.reads ≡ Reads.Nothing }
    {
        self.reads = Reads::Nothing;
    }

    /// The next word, which is used now; none where all are.
    #[tactic(auto, using(crate::proofs::ToldLemmas::drop_at_word, crate::proofs::ToldLemmas::drop_past))]
    pub(crate) fn next(&mut self) -> Option<u32>
        ensures words { MatchOption result (words_left self.old ≡ []) (λ word. words_left self.old ≡ word ∷ words_left self.new) }
        ensures reads { self.new.reads ≡ self.old.reads }
    {
        match self.words.get(self.used) {
            None => None,
            Some(word) => {
                self.used += 1;
                Some(*word)
            }
        }
    }

    /// Notes that a number was read.
    pub(crate) fn note(&mut self, read: Read)
        requires { read_count self.old.reads ≤ 1 }
        ensures words { words_left self.new ≡ words_left self.old }
        ensures reads { addresses_read self.new.reads ≡ read_before read (addresses_read self.old.reads) }
        ensures count { read_count self.new.reads ≡ read_count self.old.reads + 1 }
    {
        self.reads = match self.reads {
            Reads::Nothing => Reads::One(read),
            Reads::One(first) => Reads::Two(first, read),
            Reads::Two(..) => unreachable!(),
        };
    }
}
