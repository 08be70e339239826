// Edges of the greatest span. Roads join junction 0 and every other one, both ways, and every two junctions m below j are joined, both
// ways, by edges that meet at m - 1: so the span of an edge is 2^m, and 4,096 between junctions 12 and 13.
ghost use Rattle.std.specs.Prelude.{◌<◌};

use crate::opening::opens;
use block::seal;
use search::search;
use std::io;
use telling::line::{Question, asked, heading, told};
use telling::page::{EMPTY, lay, put_row};
use telling::say::Said;
use travel::edge_time;

// A volume that is written, and the words at which its tables of points, edges and pieces start.
#[derive(Drop)]
struct Tables<'a> {
    volume: &'a mut [u8],
    points: usize,
    edges: usize,
    pieces: usize,
}

// The number of the edge from m up to j, where m is below j; the edge down from j to m has the next number.
fn up(m: u32, j: u32) -> u32
    requires { (m < 16) × (j < 16) × (0 < j) }
    ensures { result < 300 }
{
    j * (j - 1) + 2 * m
}

impl Tables<'_> {
    // Writes road k, with one point.
    fn put_road(&mut self, k: u32, from: u32, to: u32) {
        let i = k as usize % 1000;
        put_row(self.volume, 6 + 4 * i, &[from, to, k, 1]);
        put_row(self.volume, self.points % 10000 + 2 * i, &[0, 60]);
    }

    // Writes edge e, with one piece.
    fn put_edge(&mut self, e: u32, from: u32, to: u32, left: u32, right: u32, span: u32) {
        let i = e as usize % 1000;
        put_row(
            self.volume,
            self.edges % 10000 + 5 * i,
            &[from, to, e, 1, span],
        );
        put_row(self.volume, self.pieces % 10000 + 3 * i, &[0, left, right]);
    }

    // Writes all that joins j to the junctions below: two roads and their edges to junction 0, and the edges to every other m, which
    // meet at m - 1.
    fn put_junction(&mut self, j: u32)
        requires { (0 < j) × (j < 16) }
    {
        let k = 2 * (j - 1);
        self.put_road(k, 0, j);
        self.put_road(k + 1, j, 0);
        let e = up(0, j);
        self.put_edge(e, 0, j, k, EMPTY, 1);
        self.put_edge(e + 1, j, 0, k + 1, EMPTY, 1);
        for m in 1..j {
            let e = up(m, j);
            let here = up(m - 1, m);
            let there = up(m - 1, j);
            self.put_edge(e, m, j, here + 1, there, 1 << m);
            self.put_edge(e + 1, j, m, there + 1, here, 1 << m);
        }
    }

    // Writes all that joins 14 junctions.
    fn put_all(&mut self) {
        for j in 1..14 {
            self.put_junction(j);
        }
    }
}

// The last edge goes over 4,096 roads of a minute each, and a path list with one place less has no room for them.
fn ask_greatest(rt: &impl Print, v: &[u8]) -> io::Result<()> {
    let mut work = [0u64; 112];
    let mut path = [0u32; 4095];
    told(rt, "edge 181 at 0", Said(edge_time(v, 181, 0)), "245760")?;
    let question = Question {
        from: 13,
        to: 12,
        departure: 0,
        budget: 5,
    };
    let a = search(v, 13, 12, 0, 5, &mut work, &mut path);
    print!(rt; "work 112 room 4095: ")?;
    asked(rt, question, a, &path, "refused 9 4096")
}

fn greatest(rt: &impl Print) -> io::Result<()> {
    let mut v = [0u8; 6656];
    lay(&mut v, "head 1 14 26 26 182 182");
    let mut tables = Tables {
        volume: &mut v,
        points: 110,
        edges: 162,
        pieces: 1072,
    };
    tables.put_all();
    let _ = seal(&mut v);
    opens(
        rt,
        "span 4096",
        &v,
        "junctions 14 roads 26 points 26 edges 182 pieces 182",
    )?;
    ask_greatest(rt, &v)
}

// The same with a road from 12 on to 14, and an edge over it that goes from 13 by the edge of span 4,096.
fn over(rt: &impl Print) -> io::Result<()> {
    let mut v = [0u8; 7168];
    lay(&mut v, "head 1 15 27 27 184 184");
    let mut tables = Tables {
        volume: &mut v,
        points: 114,
        edges: 168,
        pieces: 1088,
    };
    tables.put_all();
    tables.put_road(26, 12, 14);
    tables.put_edge(182, 12, 14, 26, EMPTY, 1);
    tables.put_edge(183, 13, 14, 181, 182, 4097);
    let _ = seal(&mut v);
    opens(rt, "span 4097", &v, "refused 6 183")
}

pub(crate) fn spans(rt: &impl Print) -> io::Result<()> {
    heading(rt, "The greatest span")?;
    greatest(rt)?;
    over(rt)
}
