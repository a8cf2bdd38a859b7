//! Replies of one line, which take no memory.

ghost use Rattle.std.specs.Prelude.{◌≡◌, ◌+◌, ◌≤◌, [], ◌∷◌, ◌++◌, length, codes};
ghost use Rattle.std.specs.Fmt.{decimal};
ghost use Rattle.arrayvec.specs.ArrayVec.{array_vec_len};
ghost use Rattle.requests.specs.Texts.{absent_text, stepped_text, settled_text, lane_text};

use arrayvec::ArrayVec;
use itoa::Buffer;
use surf_base::hex8;

/// A line of ASCII.
pub(crate) type Line = ArrayVec<u8, 64>;

fn put(line: &mut Line, piece: &[u8])
    requires { array_vec_len line.old + length piece.now ≤ 64 }
    ensures text { line.new.items ≡ line.old.items ++ piece.now }
    ensures len { array_vec_len line.new ≡ array_vec_len line.old + length piece.now }
{
    match line.try_extend_from_slice(piece) {
        Ok(()) => {}
        Err(_) => unreachable!(),
    }
}

// Puts a text and a decimal number behind it.
fn put_number(line: &mut Line, front: &[u8], number: u32)
    requires { array_vec_len line.old + length front.now + 10 ≤ 64 }
    ensures text { line.new.items ≡ line.old.items ++ (front.now ++ decimal number) }
    ensures len { array_vec_len line.new ≤ array_vec_len line.old + length front.now + 10 }
{
    let mut buffer = Buffer::new();
    let digits = buffer.format(number).as_bytes();
    put(line, front);
    put(line, digits);
}

/// No node of the round of this number and lane has the address.
pub(crate) fn absent(at: u32, round: u32, lane: u32) -> Line
    ensures { result.items ≡ absent_text at round lane }
{
    let mut line = Line::new();
    put(&mut line, b"absent ");
    put(&mut line, &hex8(at));
    put_number(&mut line, b" round ", round);
    put_number(&mut line, b" lane ", lane);
    put(&mut line, b"\n");
    line
}

// A word, the number of a round and the number of call sites.
fn numbered(word: &[u8], round: u32, lane: u32) -> Line
    requires { length word.now ≤ 10 }
    ensures { result.items ≡ word.now ++ (decimal round ++ (codes " lane " ++ (decimal lane ++ 10 ∷ []))) }
{
    let mut line = Line::new();
    put_number(&mut line, word, round);
    put_number(&mut line, b" lane ", lane);
    put(&mut line, b"\n");
    line
}

/// The round of this number was published.
pub(crate) fn stepped(round: u32, lane: u32) -> Line
    ensures { result.items ≡ stepped_text round lane }
{
    numbered(b"stepped ", round, lane)
}

/// The round of this number is the last.
pub(crate) fn settled(round: u32, lane: u32) -> Line
    ensures { result.items ≡ settled_text round lane }
{
    numbered(b"settled ", round, lane)
}

/// The session asks of other rounds from now on.
pub(crate) fn moved(lane: u32) -> Line
    ensures { result.items ≡ lane_text lane }
{
    let mut line = Line::new();
    put_number(&mut line, b"lane ", lane);
    put(&mut line, b"\n");
    line
}
