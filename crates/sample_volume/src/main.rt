// Writes the sample network of document 01 as a sealed volume of one block to standard output. Its expectation, the file `stdout`
// beside src/, is that volume, and so is sample.volume at the repository's root.
#![tactic(auto)]

use std::io::{self, Write};

// The word of an empty middle: document 01's number.
const EMPTY: u32 = u32::MAX;

// Head; roads; points; edges; pieces.
const WORDS: [u32; 56] = [
    1, 3, 3, 4, 3, 5, 1, 0, 0, 1, 0, 2, 1, 2, 1, 2, 3, 1, 0, 60, 0, 100, 100, 50, 0, 150, 1, 0, 0,
    1, 1, 0, 2, 1, 1, 1, 1, 2, 2, 3, 2, 0, 0, EMPTY, 0, 1, EMPTY, 0, 0, 1, 70806, 2, EMPTY, 86359,
    0, 1,
];

fn main(rt: HostRuntime) -> io::Result<()> {
    let mut v = [0u8; 512];
    for (i, x) in WORDS.iter().enumerate() {
        block::put_word(&mut v, i, *x);
    }
    let _ = block::seal(&mut v);
    io::writer(&rt).write_all(&v)
}
