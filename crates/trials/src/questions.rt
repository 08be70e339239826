// Questions to the sample: document 01's cases, the refusals of a search, and the lent lists' least sizes; and to the ferry, for a window
// with an upper end.
ghost use Rattle.std.specs.Prelude.{◌≤◌};

use search::search;
use std::io;
use telling::line::{Question, asked, heading};
use telling::networks::{FERRY, SAMPLE};
use telling::page::lay;

fn question(from: u32, to: u32, departure: u32, budget: u32) -> Question {
    Question {
        from,
        to,
        departure,
        budget,
    }
}

// Asks with a work area and a path list that are lent.
fn ask_with(
    rt: &impl Print,
    v: &[u8],
    q: Question,
    work: &mut [u64],
    path: &mut [u32],
    line: &str,
) -> io::Result<()> {
    let a = search(v, q.from, q.to, q.departure, q.budget, work, path);
    asked(rt, q, a, path, line)
}

// Asks with a work area of so many numbers and room for so many roads.
fn ask_lending(
    rt: &impl Print,
    v: &[u8],
    numbers: usize,
    room: usize,
    q: Question,
    line: &str,
) -> io::Result<()>
    requires { (numbers ≤ 24) × (room ≤ 2) }
{
    let mut work = [0u64; 24];
    let mut path = [0u32; 2];
    print!(rt; "work {numbers} room {room}: ")?;
    ask_with(rt, v, q, &mut work[..numbers], &mut path[..room], line)
}

// Asks with room for every answer: 8 numbers for each of six junctions, and more roads than any path here has.
fn ask(rt: &impl Print, v: &[u8], q: Question, line: &str) -> io::Result<()> {
    let mut work = [0u64; 48];
    let mut path = [0u32; 4];
    ask_with(rt, v, q, &mut work, &mut path, line)
}

fn cases(rt: &impl Print, v: &[u8]) -> io::Result<()> {
    ask(rt, v, question(1, 2, 0, 3), "arrive 130 used 2 roads 0 1")?;
    ask(
        rt,
        v,
        question(1, 2, 70805, 5),
        "arrive 70955 used 2 roads 0 1",
    )?;
    ask(
        rt,
        v,
        question(1, 2, 70806, 5),
        "arrive 70956 used 2 roads 2",
    )?;
    ask(
        rt,
        v,
        question(1, 2, 86399, 5),
        "arrive 86529 used 2 roads 0 1",
    )?;
    ask(rt, v, question(1, 2, 0, 1), "open 130 to - used 1")?;
    ask(rt, v, question(1, 2, 0, 0), "open 0 to - used 0")?;
    ask(rt, v, question(2, 1, 0, 5), "no way used 1")?;
    ask(rt, v, question(1, 0, 0, 5), "arrive 60 used 2 roads 0")?;
    ask(rt, v, question(1, 1, 0, 1), "arrive 0 used 1 roads")?;
    ask(rt, v, question(1, 1, 0, 0), "open 0 to - used 0")
}

fn refusals(rt: &impl Print, v: &[u8]) -> io::Result<()> {
    ask(rt, v, question(3, 2, 0, 5), "refused 7 0")?;
    ask(rt, v, question(1, 3, 0, 5), "refused 7 1")?;
    ask(rt, v, question(3, 3, 0, 5), "refused 7 0")
}

// The least work area and path list, and one place less.
fn lists(rt: &impl Print, v: &[u8]) -> io::Result<()> {
    let over = question(1, 2, 0, 5);
    let nowhere = question(1, 1, 0, 5);
    ask_lending(rt, v, 24, 2, over, "arrive 130 used 2 roads 0 1")?;
    ask_lending(rt, v, 23, 2, over, "refused 8 0")?;
    ask_lending(rt, v, 24, 1, over, "refused 9 2")?;
    ask_lending(rt, v, 24, 0, nowhere, "arrive 0 used 1 roads")
}

// A window with an upper end. From 0, junction 3 climbs at 30120, but 4 is settled first, at 30100, and leads back to 3 by 30459.
fn window(rt: &impl Print) -> io::Result<()> {
    heading(
        rt,
        "Questions to the ferry: a later arrival is found before the least",
    )?;
    let mut v = [0u8; 1024];
    lay(&mut v, FERRY);
    ask(
        rt,
        &v,
        question(0, 3, 30000, 3),
        "open 30120 to 30459 used 3",
    )?;
    ask(
        rt,
        &v,
        question(0, 3, 30000, 4),
        "arrive 30120 used 4 roads 0",
    )
}

pub(crate) fn questions(rt: &impl Print) -> io::Result<()> {
    heading(rt, "Questions to the sample")?;
    let mut v = [0u8; 512];
    lay(&mut v, SAMPLE);
    cases(rt, &v)?;
    refusals(rt, &v)?;
    lists(rt, &v)?;
    window(rt)
}
