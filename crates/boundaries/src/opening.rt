// Opening at the boundaries of the rules: what just passes, and what is just refused.
use block::seal;
use std::fmt::Display;
use std::io;
use telling::line::{heading, told};
use telling::networks::{FERRY, SAMPLE};
use telling::page::{lay, one_block, put, put_row};
use telling::say::Said;
use volume::open;

// The line of opening v.
pub(crate) fn opens<L: Display + Drop>(
    rt: &impl Print,
    label: L,
    v: &[u8],
    line: &str,
) -> io::Result<()> {
    told(rt, label, Said(open(v)), line)
}

// The sample with content word w changed to x, sealed again.
fn with_word(rt: &impl Print, label: &str, w: usize, x: u32, line: &str) -> io::Result<()> {
    let mut v = [0u8; 512];
    lay(&mut v, SAMPLE);
    put(&mut v, w, x);
    let _ = seal(&mut v);
    opens(rt, label, &v, line)
}

// The sample with road 1 going by the points (t, f) and (u, g).
fn with_points(rt: &impl Print, t: u32, f: u32, u: u32, g: u32, line: &str) -> io::Result<()> {
    let mut v = [0u8; 512];
    lay(&mut v, SAMPLE);
    put_row(&mut v, 20, &[t, f, u, g]);
    let _ = seal(&mut v);
    opens(rt, format_args!("road 1 by {t} {f} and {u} {g}"), &v, line)
}

fn lengths(rt: &impl Print) -> io::Result<()> {
    let v = [0u8; 513];
    opens(rt, "no byte", &v[..0], "refused 1 0")?;
    opens(rt, "511 bytes", &v[..511], "refused 1 0")?;
    opens(rt, "513 bytes", &v, "refused 1 0")
}

// A byte of the first block changed, and one of the second.
fn bytes(rt: &impl Print) -> io::Result<()> {
    let mut v = [0u8; 1024];
    lay(&mut v, FERRY);
    opens(
        rt,
        "two blocks",
        &v,
        "junctions 6 roads 7 points 14 edges 9 pieces 13",
    )?;
    v[520] = 77;
    opens(rt, "byte 520 changed", &v, "refused 2 1")?;
    v[100] = 77;
    opens(rt, "byte 100 changed too", &v, "refused 2 0")
}

fn too_many_blocks(rt: &impl Print) -> io::Result<()> {
    let mut v = [0u8; 1024];
    lay(&mut v, SAMPLE);
    opens(rt, "one block too many", &v, "refused 4 0")
}

fn too_few_blocks(rt: &impl Print) -> io::Result<()> {
    let mut v = [0u8; 512];
    lay(&mut v, FERRY);
    opens(rt, "one block too few", &v, "refused 4 0")
}

fn heads(rt: &impl Print) -> io::Result<()> {
    let whole = "junctions 3 roads 3 points 4 edges 3 pieces 5";
    with_word(rt, "edition 1", 0, 1, whole)?;
    with_word(rt, "edition 2", 0, 2, "refused 3 0")?;
    with_word(rt, "0 junctions", 1, 0, "refused 4 0")?;
    with_word(
        rt,
        "1024 junctions",
        1,
        1024,
        "junctions 1024 roads 3 points 4 edges 3 pieces 5",
    )?;
    with_word(rt, "1025 junctions", 1, 1025, "refused 4 0")?;
    with_word(rt, "first filler word 1", 56, 1, "refused 4 0")?;
    with_word(rt, "last filler word 1", 125, 1, "refused 4 0")
}

// Records left over.
fn leftovers(rt: &impl Print) -> io::Result<()> {
    opens(
        rt,
        "one point over",
        &one_block("head 1 2 1 2 0 0, road 0 1 0 1, points 0 60, 100 60"),
        "refused 5 1",
    )?;
    opens(
        rt,
        "one piece over",
        &one_block(
            "head 1 2 1 1 1 2, road 0 1 0 1, point 0 60, edge 0 1 0 1 1, pieces 0 0 -, 100 0 -",
        ),
        "refused 6 1",
    )
}

// A fall of 50 in 50 seconds and of 51 in 50, inside the day and over midnight.
fn falls(rt: &impl Print) -> io::Result<()> {
    let whole = "junctions 3 roads 3 points 4 edges 3 pieces 5";
    with_points(rt, 0, 100, 50, 50, whole)?;
    with_points(rt, 0, 101, 50, 50, "refused 5 1")?;
    with_points(rt, 0, 50, 86350, 100, whole)?;
    with_points(rt, 0, 50, 86350, 101, "refused 5 1")
}

pub(crate) fn openings(rt: &impl Print) -> io::Result<()> {
    heading(rt, "Opening at the boundaries of the rules")?;
    lengths(rt)?;
    bytes(rt)?;
    heads(rt)?;
    too_many_blocks(rt)?;
    too_few_blocks(rt)?;
    leftovers(rt)?;
    falls(rt)
}
