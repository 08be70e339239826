// The full check of the sample and of its neighbours that are not full.
use full::check;
use std::io;
use telling::line::{heading, told};
use telling::networks::SAMPLE;
use telling::page::{lay, one_block};
use telling::say::{Checked, Said};

// The line of the full check of v.
fn checked(rt: &impl Print, label: &str, v: &[u8], line: &str) -> io::Result<()> {
    told(rt, label, Said(check(v).map(Checked)), line)
}

// The sample with other pieces of edge 2, and with no edge 2.
fn neighbours(rt: &impl Print) -> io::Result<()> {
    checked(
        rt,
        "edge 2 by edges 0 and 1 all day",
        &one_block(
            "head 1 3 3 4 3 3, roads 1 0 0 1, 0 2 1 2, 1 2 3 1, points 0 60, 0 100, 100 50, 0 150,
        edges 1 0 0 1 1, 0 2 1 1 1, 1 2 2 1 2, pieces 0 0 -, 0 1 -, 0 0 1",
        ),
        "road 2 late at 70806",
    )?;
    checked(
        rt,
        "edge 2 by road 2 from 70806 on",
        &one_block(
            "head 1 3 3 4 3 4, roads 1 0 0 1, 0 2 1 2, 1 2 3 1, points 0 60, 0 100, 100 50, 0 150,
        edges 1 0 0 1 1, 0 2 1 1 1, 1 2 2 2 2, pieces 0 0 -, 0 1 -, 0 0 1, 70806 2 -",
        ),
        "edges 0 and 1 late at 86361",
    )?;
    checked(
        rt,
        "no edge 2",
        &one_block(
            "head 1 3 3 4 2 2, roads 1 0 0 1, 0 2 1 2, 1 2 3 1, points 0 60, 0 100, 100 50, 0 150,
        edges 1 0 0 1 1, 0 2 1 1 1, pieces 0 0 -, 0 1 -",
        ),
        "road 2 has no edge",
    )?;
    checked(
        rt,
        "neither edge 2 nor road 2",
        &one_block(
            "head 1 3 2 3 2 2, roads 1 0 0 1, 0 2 1 2, points 0 60, 0 100, 100 50,
        edges 1 0 0 1 1, 0 2 1 1 1, pieces 0 0 -, 0 1 -",
        ),
        "edges 0 and 1 have no edge",
    )
}

pub(crate) fn fullness(rt: &impl Print) -> io::Result<()> {
    heading(rt, "The full check of the sample and of its neighbours")?;
    let mut v = [0u8; 512];
    lay(&mut v, SAMPLE);
    checked(rt, "the sample", &v, "full")?;
    neighbours(rt)?;
    checked(rt, "no byte", &v[..0], "refused 1 0")
}
