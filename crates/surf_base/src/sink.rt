// Where text goes.
ghost use Rattle.std.specs.Prelude.{◌≡◌, ◌==◌, ◌+◌, ◌<◌, ◌≤◌, min, ℕ, List, length, Option, OnOk, OnErr};
ghost use Rattle.std.specs.List.{position, position_or_len};
ghost use Rattle.surf_base.specs.Faults.{Rose};
ghost use Rattle.surf_base.specs.Sink.{Appends, AppendsPart, WritesLines, StopsInLine};

/// A piece of text wasn't written, and the count of the sink's faults rose.
#[derive(Clone, Copy, Debug, PartialEq, Eq)]
pub struct SinkFailed;

/// A text that grows.
pub trait Sink {
    /// The bytes written so far, where they are told.
    ghost written: { Self → Option (List ℕ) };

    /// How often writes have failed.
    ghost faults: { Self → ℕ };

    /// Appends the piece. After an error some beginning of it was appended.
    fn write(&mut self, piece: &[u8]) -> Result<(), SinkFailed>
        ensures appended { OnOk result (Appends (written self.old) (written self.new) piece.now) }
        ensures part { OnErr result (AppendsPart (written self.old) (written self.new) piece.now) }
        ensures cause { OnErr result (Rose (faults self.old) (faults self.new)) }
        ensures kept { OnOk result (faults self.new ≡ faults self.old) }
        ensures counts { faults self.old ≤ faults self.new };
}

fn line_end(text: &[u8]) -> Option<usize>
    ensures { result ≡ position (λ byte. byte == 10) text.now }
{
    text.iter().position(|byte| *byte == b'\n')
}

// How many bytes the first line has, with its LF.
fn first_line_len(text: &[u8]) -> usize
    requires { 0 < length text.now }
    ensures { result ≡ min (position_or_len (λ byte. byte == 10) text.now + 1) (length text.now) }
{
    match line_end(text) {
        Some(at) => at + 1,
        None => text.len(),
    }
}

/// Writes a text by one call of `write` a line, LF included. After an error the lines before the failing one
/// were appended, and some beginning of that one.
pub fn write_lines<K: Sink>(text: &[u8], sink: &mut K) -> Result<(), SinkFailed>
    ensures lines { OnOk result (WritesLines K.written K.faults sink.old text.now sink.new) }
    ensures stops { OnErr result (StopsInLine K.written K.faults sink.old text.now sink.new) }
    ensures appended { OnOk result (Appends (K.written sink.old) (K.written sink.new) text.now) }
    ensures cause { OnErr result (Rose (K.faults sink.old) (K.faults sink.new)) }
    ensures counts { K.faults sink.old ≤ K.faults sink.new }
{
    let mut rest = text;
    while !rest.is_empty() {
        let (line, after) = rest.split_at(first_line_len(rest));
        sink.write(line)?;
        rest = after;
    }
    Ok(())
}
