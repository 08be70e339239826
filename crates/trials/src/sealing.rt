// Sealing: the sums of document 01's two blocks, and the lengths that are refused.
use block::{seal, word};
use std::io;
use telling::line::{heading, told};
use telling::page::put;
use telling::say::Said;

// The sums of block 0 with one content word, the rest zero.
fn sums(rt: &impl Print, first: u32, line: &str) -> io::Result<()> {
    let mut v = [0u8; 512];
    put(&mut v, 0, first);
    let _ = seal(&mut v);
    let a = word(&v, 126);
    let b = word(&v, 127);
    told(
        rt,
        format_args!("first word {first}"),
        format_args!("A {a} B {b}"),
        line,
    )
}

// The line of sealing v.
fn seals(rt: &impl Print, label: &str, v: &mut [u8], line: &str) -> io::Result<()> {
    told(rt, label, Said(seal(v).map(|()| "sealed")), line)
}

fn lengths(rt: &impl Print) -> io::Result<()> {
    seals(rt, "512 bytes", &mut [0u8; 512], "sealed")?;
    seals(rt, "511 bytes", &mut [0u8; 511], "refused 1 0")
}

pub(crate) fn sealing(rt: &impl Print) -> io::Result<()> {
    heading(rt, "Sealing one block")?;
    sums(rt, 0, "A 1 B 126")?;
    sums(rt, u32::MAX, "A 0 B 0")?;
    lengths(rt)
}
