// The records of a volume, read: a road, a point, an edge and a piece, whole. Whoever holds `Records` knows that all of them lie in the
// bytes, so no reader tests anything. What is not used of a record is not read: the compiler leaves it out. The functions that its
// methods are made of stand beside them, since they ask less: where the tables begin, and nothing of what the head counts.
ghost use Rattle.std.specs.Prelude.{◌≡◌, ◌+◌, ◌*◌, ◌^◌, ◌≤◌, ◌<◌, length};
ghost use Rattle.records.specs.Format.{volume_of, counts_of, Counted, Laid, IsRoad, IsPoint, IsEdge, IsPiece, IsWay};
ghost use Rattle.block.specs.Word.{content_at, Holds};

use crate::tables::{
    Counts, EDGE_WORDS, EMPTY, Edge, HEAD_WORDS, LEFT, PIECE_WORDS, POINT_WORDS, Piece, Point,
    RIGHT, ROAD_WORDS, Road, Tables, Way,
};
use block::{content, content_pair};

// A volume's bytes, what its head counts, and the content words at which its tables begin.
#[derive(Clone, Copy)]
pub struct Records<'a> {
    pub bytes: &'a [u8],
    pub counts: Counts,
    pub tables: Tables,
    pub ghost counted: { Counted (volume_of bytes.now) counts },
    pub ghost laid: { Laid bytes.now tables },
}

// The content word at which record i begins, of those of so many words each from word `base` on. Its number fits 32 bits, which the
// compiler learns from the casts: it then reads a word by three instructions and not by five.
fn record_at(base: usize, words: usize, i: usize) -> usize
    requires { base + words * i < 2 ^ 32 }
    ensures { result ≡ base + words * i }
{
    (base + words * i) as u32 as usize
}

// N, R, P, E and Q as the head says.
pub fn head(v: &[u8]) -> Counts
    requires { 512 ≤ length v.now }
    ensures { result ≡ counts_of (volume_of v.now) }
{
    Counts {
        junctions: content(v, 1) as usize,
        roads: content(v, 2) as usize,
        points: content(v, 3) as usize,
        edges: content(v, 4) as usize,
        pieces: content(v, 5) as usize,
    }
}

// How a piece with that left and right goes: by a road, where its right is empty, or by two edges in turn.
fn way(left: usize, right: usize) -> Way
    requires { (left < 2 ^ 32) × (right < 2 ^ 32) }
    ensures { IsWay left right result }
{
    if right == EMPTY {
        Way::Road(left)
    } else {
        Way::Turn(left, right)
    }
}

// How the piece at content word w goes.
pub fn way_at(v: &[u8], w: usize) -> Way
    requires { Holds v.now (w + 2) }
    ensures { IsWay (content_at v.now (w + 1)) (content_at v.now (w + 2)) result }
{
    way(
        content(v, w + LEFT) as usize,
        content(v, w + RIGHT) as usize,
    )
}

// Road k. Its first word stands at an even place, so its four words are two pairs.
pub fn road_at(v: &[u8], t: Tables, k: usize) -> Road
    requires laid { Laid v.now t }
    requires k_bound { k < (volume_of v.now).roads }
    ensures { IsRoad (volume_of v.now) k result }
{
    let w = record_at(HEAD_WORDS, ROAD_WORDS, k);
    let ends = content_pair(v, w);
    let points = content_pair(v, w + 2);
    Road {
        from: ends.first as usize,
        to: ends.second as usize,
        first: points.first as usize,
        points: points.second as usize,
    }
}

// Point i of all.
pub fn point_at(v: &[u8], t: Tables, i: usize) -> Point
    requires laid { Laid v.now t }
    requires i_bound { i < (volume_of v.now).points }
    ensures { IsPoint (volume_of v.now) i result }
{
    let words = content_pair(v, record_at(t.points, POINT_WORDS, i));
    Point {
        second: words.first as u64,
        duration: words.second as u64,
    }
}

// The junction where edge e begins.
pub fn edge_from(v: &[u8], t: Tables, e: usize) -> usize
    requires laid { Laid v.now t }
    requires e_bound { e < (volume_of v.now).edges }
    ensures { (result ≡ (volume_of v.now).edge_from e) × (result < 2 ^ 32) }
{
    content(v, record_at(t.edges, EDGE_WORDS, e)) as usize
}

// The junction where edge e ends.
pub fn edge_to(v: &[u8], t: Tables, e: usize) -> usize
    requires laid { Laid v.now t }
    requires e_bound { e < (volume_of v.now).edges }
    ensures { (result ≡ (volume_of v.now).edge_to e) × (result < 2 ^ 32) }
{
    content(v, record_at(t.edges, EDGE_WORDS, e) + 1) as usize
}

// The first piece of edge e.
pub fn edge_first(v: &[u8], t: Tables, e: usize) -> usize
    requires laid { Laid v.now t }
    requires e_bound { e < (volume_of v.now).edges }
    ensures { (result ≡ (volume_of v.now).edge_first e) × (result < 2 ^ 32) }
{
    content(v, record_at(t.edges, EDGE_WORDS, e) + 2) as usize
}

// How many pieces edge e has.
pub fn edge_pieces(v: &[u8], t: Tables, e: usize) -> usize
    requires laid { Laid v.now t }
    requires e_bound { e < (volume_of v.now).edges }
    ensures { (result ≡ (volume_of v.now).edge_pieces e) × (result < 2 ^ 32) }
{
    content(v, record_at(t.edges, EDGE_WORDS, e) + 3) as usize
}

// The span of edge e.
pub fn edge_span(v: &[u8], t: Tables, e: usize) -> usize
    requires laid { Laid v.now t }
    requires e_bound { e < (volume_of v.now).edges }
    ensures { (result ≡ (volume_of v.now).edge_span e) × (result < 2 ^ 32) }
{
    content(v, record_at(t.edges, EDGE_WORDS, e) + 4) as usize
}

// The second at which piece p starts.
pub fn piece_start(v: &[u8], t: Tables, p: usize) -> u64
    requires laid { Laid v.now t }
    requires p_bound { p < (volume_of v.now).pieces }
    ensures { (result ≡ (volume_of v.now).piece_start p) × (result < 2 ^ 32) }
{
    content(v, record_at(t.pieces, PIECE_WORDS, p)) as u64
}

// The left of piece p: an edge, or a road where the middle is empty.
pub fn piece_left(v: &[u8], t: Tables, p: usize) -> usize
    requires laid { Laid v.now t }
    requires p_bound { p < (volume_of v.now).pieces }
    ensures { (result ≡ (volume_of v.now).piece_left p) × (result < 2 ^ 32) }
{
    content(v, record_at(t.pieces, PIECE_WORDS, p) + LEFT) as usize
}

// The right of piece p: an edge, or EMPTY.
pub fn piece_right(v: &[u8], t: Tables, p: usize) -> usize
    requires laid { Laid v.now t }
    requires p_bound { p < (volume_of v.now).pieces }
    ensures { (result ≡ (volume_of v.now).piece_right p) × (result < 2 ^ 32) }
{
    content(v, record_at(t.pieces, PIECE_WORDS, p) + RIGHT) as usize
}

impl<'a> Records<'a> {
    // The records of bytes in which someone knows the tables; what the head counts is read there.
    pub fn new(bytes: &'a [u8], tables: Tables) -> Self
        requires { Laid bytes.now tables }
        ensures { (result.bytes.now ≡ bytes.now) × (result.counts ≡ counts_of (volume_of bytes.now)) × (result.tables ≡ tables) }
    {
        Records {
            bytes,
            counts: head(bytes),
            tables,
        }
    }
}

impl Records<'_> {
    // Road k.
    pub fn road(&self, k: usize) -> Road
        requires { k < (volume_of self.now.bytes.now).roads }
        ensures { IsRoad (volume_of self.now.bytes.now) k result }
    {
        road_at(self.bytes, self.tables, k)
    }

    // Point i of all.
    pub fn point(&self, i: usize) -> Point
        requires { i < (volume_of self.now.bytes.now).points }
        ensures { IsPoint (volume_of self.now.bytes.now) i result }
    {
        point_at(self.bytes, self.tables, i)
    }

    // Edge e.
    pub fn edge(&self, e: usize) -> Edge
        requires { e < (volume_of self.now.bytes.now).edges }
        ensures { IsEdge (volume_of self.now.bytes.now) e result }
    {
        let (v, t) = (self.bytes, self.tables);
        Edge {
            from: edge_from(v, t, e),
            to: edge_to(v, t, e),
            first: edge_first(v, t, e),
            pieces: edge_pieces(v, t, e),
            span: edge_span(v, t, e),
        }
    }

    // Piece p of all.
    pub fn piece(&self, p: usize) -> Piece
        requires { p < (volume_of self.now.bytes.now).pieces }
        ensures { IsPiece (volume_of self.now.bytes.now) p result }
    {
        let (v, t) = (self.bytes, self.tables);
        Piece {
            start: piece_start(v, t, p),
            way: way(piece_left(v, t, p), piece_right(v, t, p)),
        }
    }
}
