// Blocks: the words of a volume, the two sums of a block, sealing, and the first block whose sums
// differ. Answers to document 01, "The volume", first paragraph. What the words mean is said in the
// crate `records`. In `refusal` are the refusals of every crate.
#![tactic(auto)]

ghost use Rattle.std.specs.Prelude.{◌≡◌, ◌+◌, ◌*◌, ◌/◌, ◌%◌, ◌<◌, ◌≤◌, length};
ghost use Rattle.block.specs.Word.{word_from, word_at, put_word, content_at, most_words, Holds};
ghost use Rattle.block.specs.Sums.{Summed, Gained};
ghost use Rattle.block.specs.Lanes.{Joined};
ghost use Rattle.block.specs.Whole.{whole};
ghost use Rattle.block.specs.Seal.{seal_to, sealed, sealing};
ghost use Rattle.block.specs.First.{Found};
ghost use Rattle.block.specs.Good.{good, first_bad};

use crate::refusal::Refusal;

pub mod refusal;

// The word that begins at byte `at` of v, least byte first. Its four bytes are named, which is no longer than a part of v of that length.
fn word_from(v: &[u8], at: usize) -> u32
    requires { at + 3 < length v.now }
    ensures { result ≡ word_from v.now at }
{
    u32::from_le_bytes([v[at], v[at + 1], v[at + 2], v[at + 3]])
}

// Word i of v.
pub fn word(v: &[u8], i: usize) -> u32
    requires { 4 * i + 3 < length v.now }
    ensures { result ≡ word_at v.now i }
{
    word_from(v, 4 * i)
}

// Which block content word w stands in. Every record is read through this, so the division is a multiplication and a shift:
// 532,611 / 2^26 is so little above 1 / 126 that w / 126 comes out for every w of 3,381 blocks.
fn block_of(w: usize) -> usize
    requires { w < most_words }
    ensures { result ≡ w / 126 }
{
    w * 532611 / 67108864
}

// Content word w of v: two sums, 8 bytes, stand behind the content of each block before. The place is a sum of bytes and not of words,
// since the compiler makes such a sum a part of the reading instruction.
// `Holds` is a bound of w, and is asked where w is handed over.
pub fn content(v: &[u8], w: usize) -> u32
    requires { Holds v.now w }
    ensures { result ≡ content_at v.now w }
{
    word_from(v, 4 * w + 8 * block_of(w))
}

#[derive(Clone, Copy)]
pub struct Pair {
    pub first: u32,
    pub second: u32,
}

// Content words w and w + 1 for an even w: a block has an even number of them, so the two stand side by side.
pub fn content_pair(v: &[u8], w: usize) -> Pair
    requires { (w % 2 ≡ 0) × Holds v.now (w + 1) }
    ensures { (result.first ≡ content_at v.now w) × (result.second ≡ content_at v.now (w + 1)) }
{
    let at = 4 * w + 8 * block_of(w);
    Pair {
        first: word_from(v, at),
        second: word_from(v, at + 4),
    }
}

// Writes x as word i of v. By four stores: with `copy_from_slice` it was tried, and the proof did not close.
pub fn put_word(v: &mut [u8], i: usize, x: u32)
    requires { 4 * i + 3 < length v.old }
    ensures { v.new ≡ put_word v.old i x }
{
    let at = 4 * i;
    let [b0, b1, b2, b3] = x.to_le_bytes();
    v[at] = b0;
    v[at + 1] = b1;
    v[at + 2] = b2;
    v[at + 3] = b3;
}

// The default is the sums of no words.
#[derive(Clone, Copy, Default)]
pub struct Sums {
    pub a: u32,
    pub b: u32,
}

// The sums with one word more: A gains the word, then B gains A.
fn gain(s: Sums, x: u32) -> Sums
    ensures { Gained s x result }
{
    let a = s.a.wrapping_add(x);
    let b = s.b.wrapping_add(a);
    Sums { a, b }
}

// A and B of block k after 124 words, from the sums of its four lanes: lane j has every fourth word from word j on. B counts each word
// as often as there are words from it on, so a word of lane j four times as often as the lane's B does, less j.
fn join(k: usize, l0: Sums, l1: Sums, l2: Sums, l3: Sums) -> Sums
    requires { k < 3381 }
    ensures { Joined k l0 l1 l2 l3 result }
{
    let behind = gain(gain(gain(Sums::default(), l3.a), l2.a), l1.a);
    let once = l0
        .b
        .wrapping_add(l1.b)
        .wrapping_add(l2.b.wrapping_add(l3.b));
    let twice = once.wrapping_add(once);
    let a = l0.a.wrapping_add(behind.a);
    let b = twice.wrapping_add(twice).wrapping_sub(behind.b);
    let first = k as u32 + 1;
    Sums {
        a: first.wrapping_add(a),
        b: (124 * first).wrapping_add(b),
    }
}

// The sums A and B of block k: 124 words in four lanes, none of which waits for another, so that the compiler adds them as vectors; then
// the last two.
fn sums_of(v: &[u8], k: usize) -> Sums
    requires k_in_bounds { 512 * k + 511 < length v.now }
    requires k_bound { k < 3381 }
    ensures { Summed v.now k result }
{
    let mut l0 = Sums::default();
    let mut l1 = Sums::default();
    let mut l2 = Sums::default();
    let mut l3 = Sums::default();
    for i in 0..31 {
        let at = 128 * k + 4 * i;
        l0 = gain(l0, word(v, at));
        l1 = gain(l1, word(v, at + 1));
        l2 = gain(l2, word(v, at + 2));
        l3 = gain(l3, word(v, at + 3));
    }
    let x = word(v, 128 * k + 124);
    let y = word(v, 128 * k + 125);
    gain(gain(join(k, l0, l1, l2, l3), x), y)
}

// Are n bytes 1 to 3,381 whole blocks?
pub fn is_whole(n: usize) -> bool
    ensures { result ≡ whole n }
{
    n % 512 == 0 && (512 <= n && n <= 1731072)
}

// Writes A and B of the first n blocks.
fn seal_blocks(v: &mut [u8], n: usize)
    requires { (512 * n ≤ length v.old) × (n ≤ 3381) }
    ensures { v.new ≡ seal_to v.old n }
{
    for k in 0..n {
        let s = sums_of(v, k);
        let a = s.a;
        let b = s.b;
        put_word(v, 128 * k + 126, a);
        put_word(v, 128 * k + 127, b);
    }
}

// Seals a volume: writes A and B of every block and no other byte, or refuses and writes nothing.
pub fn seal(v: &mut [u8]) -> Result<(), Refusal>
    ensures { (result ≡ sealing v.old) × (v.new ≡ sealed v.old) }
{
    let n = v.len();
    if is_whole(n) {
        seal_blocks(v, n / 512);
        return Ok(());
    }
    Err(Refusal::Length)
}

// Does block k carry its sums s?
fn carries(v: &[u8], k: usize, s: Sums) -> bool
    requires k_in_bounds { 512 * k + 511 < length v.now }
    requires summed { Summed v.now k s }
    ensures { result ≡ good v.now k }
{
    s.a == word(v, 128 * k + 126) && s.b == word(v, 128 * k + 127)
}

// The first of the n blocks of v whose A or B differs from what stands there.
pub fn first_bad(v: &[u8], n: usize) -> Option<usize>
    requires { (512 * n ≤ length v.now) × (n ≤ 3381) }
    ensures { Found result (first_bad v.now n) n }
{
    for k in 0..n {
        if !carries(v, k, sums_of(v, k)) {
            return Some(k);
        }
    }
    None
}
