//! The text of a slice, written in place.
ghost use Rattle.std.specs.Prelude.{◌≡◌, ◌≤◌, ◌+◌, ◌*◌, ◌++◌, ◌∷◌, [], ℕ, List, length, codes};
ghost use Rattle.std.specs.List.{flat_map};
ghost use Rattle.std.specs.Fmt.{decimal};
ghost use Rattle.surf_base.specs.Hex.{hex8_text};
ghost use Rattle.requests.specs.Filled.{Filled};
ghost use Rattle.requests.specs.Texts.{address_line, first_line, last_line, slice_text};

use itoa::Buffer;
use surf_base::hex8;

// Puts a piece behind the text that ends at `at`, and says where it ends now.
fn put(into: &mut [u8], at: usize, piece: &[u8]) -> usize
    requires { at + length piece.now ≤ length into.old }
    ensures end { result ≡ at + length piece.now }
    ensures text { (before text : List ℕ) → Filled before into.old at text → Filled before into.new result (text ++ piece.now) }
{
    let end = at + piece.len();
    into[at..end].copy_from_slice(piece);
    end
}

// Puts a text and a decimal number behind it.
fn put_number(into: &mut [u8], at: usize, front: &[u8], number: u32) -> usize
    requires { at + length front.now + 10 ≤ length into.old }
    ensures end { result ≤ at + length front.now + 10 }
    ensures text { (before text : List ℕ) → Filled before into.old at text → Filled before into.new result (text ++ (front.now ++ decimal number)) }
{
    let mut buffer = Buffer::new();
    let digits = buffer.format(number).as_bytes();
    let end = put(into, at, front);
    put(into, end, digits)
}

// Puts the line of an address.
fn put_address(into: &mut [u8], at: usize, address: u32) -> usize
    requires { at + 9 ≤ length into.old }
    ensures end { result ≡ at + 9 }
    ensures text { (before text : List ℕ) → Filled before into.old at text → Filled before into.new result (text ++ address_line address) }
{
    let end = put(into, at, &hex8(address));
    put(into, end, b"\n")
}

// Puts the lines of addresses.
fn put_addresses(into: &mut [u8], at: usize, addresses: &[u32]) -> usize
    requires { at + 9 * length addresses.now ≤ length into.old }
    ensures end { result ≡ at + 9 * length addresses.now }
    ensures text { (before text : List ℕ) → Filled before into.old at text → Filled before into.new result (text ++ flat_map address_line addresses.now) }
{
    let mut end = at;
    let mut rest = addresses;
    'addresses: while let Some((address, after)) = rest.split_first() {
        end = put_address(into, end, *address);
        rest = after;
    }
    end
}

// Puts the first line.
fn put_first_line(into: &mut [u8], at: u32, round: u32, lane: u32) -> usize
    requires { 48 ≤ length into.old }
    ensures end { result ≤ 48 }
    ensures text { Filled into.old into.new result (first_line (codes "slice") (at ∷ []) round lane) }
{
    let word = put(into, 0, b"slice ");
    let asked = put(into, word, &hex8(at));
    let numbered = put_number(into, asked, b" round ", round);
    let end = put_number(into, numbered, b" lane ", lane);
    put(into, end, b"\n")
}

// Puts the last line.
fn put_last_line(into: &mut [u8], at: usize, count: u32, warnings: u32) -> usize
    requires { at + 45 ≤ length into.old }
    ensures end { result ≤ at + 45 }
    ensures text { (before text : List ℕ) → Filled before into.old at text
        → Filled before into.new result (text ++ last_line (decimal count) (codes " addresses ") warnings) }
{
    let counted = put_number(into, at, b"end ", count);
    let end = put_number(into, counted, b" addresses ", warnings);
    put(into, end, b" warnings\n")
}

/// Writes the reply to a slice at an address, of a round with so many warnings, to the front of `into`, which has 40,960
/// bytes; there are at most 4,096 addresses. Gives the text's length in bytes, and leaves the bytes behind it.
pub fn write_slice(
    at: u32,
    round: u32,
    lane: u32,
    addresses: &[u32],
    warnings: u32,
    into: &mut [u8],
) -> u32
    requires few { length addresses.now ≤ 4096 }
    requires room { length into.old ≡ 40960 }
    ensures short { result ≤ 40960 }
    ensures text { Filled into.old into.new result (slice_text at round lane addresses.now warnings) }
{
    let first = put_first_line(into, at, round, lane);
    let listed = put_addresses(into, first, addresses);
    put_last_line(into, listed, addresses.len() as u32, warnings) as u32
}
