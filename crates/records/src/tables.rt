// The records of a volume as values, what its head counts, and where its tables begin.
ghost use Rattle.std.specs.Prelude.{◌≡◌, ◌+◌, ◌*◌, ◌^◌, ◌<◌};
ghost use Rattle.records.specs.Format.{Few, tables_of, words_in};

pub use crate::readers::{
    edge_first, edge_from, edge_pieces, edge_span, edge_to, piece_left, piece_right, piece_start,
    point_at, road_at,
};
use std::fmt;

// How many content words the head, a road, a point, an edge and a piece have: said here and in specs/Format.antt, and nowhere else.
pub(crate) const HEAD_WORDS: usize = 6;

pub(crate) const ROAD_WORDS: usize = 4;

pub const POINT_WORDS: usize = 2;

pub(crate) const EDGE_WORDS: usize = 5;

pub const PIECE_WORDS: usize = 3;

// Where a piece's left and right stand among its words.
pub const LEFT: usize = 1;

pub const RIGHT: usize = 2;

// The right of a piece with an empty middle: its left is a road. It is document 01's number, and is tested in `readers::way` alone.
pub const EMPTY: usize = 4294967295;

// After how many seconds a volume repeats.
pub const PERIOD: u64 = 86400;

#[derive(Clone, Copy)]
pub struct Counts {
    pub junctions: usize,
    pub roads: usize,
    pub points: usize,
    pub edges: usize,
    pub pieces: usize,
}

impl fmt::Display for Counts {
    fn fmt<W: fmt::Write>(&self, f: &mut fmt::Formatter<W>) -> fmt::Result {
        let Counts {
            junctions,
            roads,
            points,
            edges,
            pieces,
        } = *self;
        write!(
            f,
            "junctions {junctions} roads {roads} points {points} edges {edges} pieces {pieces}"
        )
    }
}

// Where the tables of points, edges and pieces begin, as content words.
#[derive(Clone, Copy)]
pub struct Tables {
    pub points: usize,
    pub edges: usize,
    pub pieces: usize,
}

#[derive(Clone, Copy)]
pub struct Road {
    pub from: usize,
    pub to: usize,
    pub first: usize,
    pub points: usize,
}

// A second of day and the duration there.
#[derive(Clone, Copy)]
pub struct Point {
    pub second: u64,
    pub duration: u64,
}

// An edge: its ends, its first piece and how many it has, and its span.
#[derive(Clone, Copy)]
pub struct Edge {
    pub from: usize,
    pub to: usize,
    pub first: usize,
    pub pieces: usize,
    pub span: usize,
}

// How a piece goes: by a road, or by two edges in turn.
#[derive(Clone, Copy, PartialEq, Eq)]
pub enum Way {
    Road(usize),
    Turn(usize, usize),
}

// A piece: the second at which it starts, and how it goes.
#[derive(Clone, Copy)]
pub struct Piece {
    pub start: u64,
    pub way: Way,
}

// Where the tables begin, from the counts.
pub fn tables_of(c: Counts) -> Tables
    requires { Few c }
    ensures { result ≡ tables_of c }
{
    let points = HEAD_WORDS + ROAD_WORDS * c.roads;
    let edges = points + POINT_WORDS * c.points;
    Tables {
        points,
        edges,
        pieces: edges + EDGE_WORDS * c.edges,
    }
}

// How many content words there are in all.
// `Few` is asked here and of `tables_of`, since `Records` is made of what they answer.
pub fn words_of(c: Counts) -> usize
    requires { Few c }
    ensures { result ≡ words_in c }
{
    tables_of(c).pieces + PIECE_WORDS * c.pieces
}
