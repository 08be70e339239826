// The desk program of document 01: reads a question and a volume from standard input and writes one line with the answer. What the
// answer is, is the crate `search`'s, and how it is written, `telling`'s.
#![tactic(auto)]

ghost use Rattle.std.specs.Prelude.{◌≤◌, length, IfOk};

use block::word;
use search::search;
use std::io::{self, Read};
use telling::say::reply;

// Answers the question at the start of the input over the volume behind it.
fn ask(rt: &impl Print, input: &[u8], work: &mut [u64], path: &mut [u32]) -> io::Result<()>
    requires { 16 ≤ length input.now }
{
    let from = word(input, 0);
    let to = word(input, 1);
    let departure = word(input, 2);
    let budget = word(input, 3);
    let answer = search(&input[16..], from, to, departure, budget, work, path);
    reply(rt, answer, path)
}

// Reads until the buffer is full or the input ends, and answers how many bytes it put at the start of the buffer.
fn read_full(reader: &mut impl Read, input: &mut [u8]) -> io::Result<usize>
    ensures { IfOk result (λ n. n ≤ length input.new) }
{
    let mut got: usize = 0;
    // no `for`: a read says how far it came, and std's own `read_to_end` wants a heap
    while got < input.len() {
        let n = reader.read(&mut input[got..])?;
        if n == 0 {
            break;
        }
        got += n;
    }
    Ok(got)
}

fn main(rt: HostRuntime) -> io::Result<()> {
    // the question, 128 blocks, and one byte more, by which a larger volume is known
    let mut input = [0u8; 65553];
    let got = read_full(&mut rt.stdin(), &mut input)?;
    if got < 16 {
        return println!(rt; "no question");
    }
    if 65552 < got {
        return println!(rt; "too large");
    }
    let mut work = [0u64; 8192];
    let mut path = [0u32; 4096];
    ask(&rt, &input[..got], &mut work, &mut path)?;
    println!(rt)
}
