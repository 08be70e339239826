// A volume from its content words, which stand in a text as numbers: `-` is the empty middle, and all between two numbers is a comment.
ghost use Rattle.std.specs.Prelude.{◌≡◌, ◌%◌, ◌<◌, length};
ghost use Rattle.block.specs.Seal.{sealed};
ghost use Rattle.telling.specs.Page.{put_content, put_row};

use block::{put_word, seal};
use std::convert::AsSlice;
use std::str;

// The word of an empty middle: document 01's number.
pub const EMPTY: u32 = u32::MAX;

// Is a byte of a text part of a number, or does it stand between two?
fn in_number(b: u8) -> bool {
    b == b'-' || b.is_ascii_digit()
}

// The number of some bytes of a text, which are digits and `-`, and so a text too. What does not parse is `-`.
fn number_of(bytes: &[u8]) -> u32 {
    let Ok(number) = str::from_utf8(bytes) else {
        return EMPTY;
    };
    number.parse().unwrap_or(EMPTY)
}

// Writes x as content word w, of the first million; past the end nothing.
pub fn put(v: &mut [u8], w: usize, x: u32)
    ensures { v.new ≡ put_content v.old (w % 1000000) x }
{
    let at = w % 1000000;
    let i = at + 2 * (at / 126);
    if i < v.len() / 4 {
        put_word(v, i, x);
    }
}

// Writes the numbers of a row as content words from word w on, of the first million; past the end nothing.
pub fn put_row(v: &mut [u8], w: usize, row: &[u32])
    requires { w < 1000000 }
    ensures { v.new ≡ put_row v.old w row.now (length row.now) }
{
    for (i, x) in row.iter().enumerate() {
        put(v, w + i, *x);
    }
}

// Writes the numbers of some bytes of text as content words from word 0 on and seals the volume.
fn lay_bytes(v: &mut [u8], text: &[u8])
    ensures { sealed v.new ≡ v.new }
{
    let numbers = text
        .split(|b: &u8| !in_number(*b))
        .filter(|bytes| !bytes.is_empty());
    for (w, bytes) in numbers.enumerate() {
        put(v, w, number_of(bytes));
    }
    let _ = seal(v);
}

// The same of a text, or of bytes in which anything may stand between two numbers.
pub fn lay<T: AsSlice<u8> + Drop>(v: &mut [u8], text: T)
    ensures { sealed v.new ≡ v.new }
{
    lay_bytes(v, text.as_slice());
}

// A volume of one block with the numbers of a text.
pub fn one_block(text: &str) -> [u8; 512]
    ensures { sealed result ≡ result }
{
    let mut v = [0u8; 512];
    lay(&mut v, text);
    v
}
