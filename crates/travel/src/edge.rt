// How long an edge takes at a departure: document 01, "Travel time". The edge asks its piece in force, and the piece asks the edges
// below: one cycle of calls, in which the edge number falls. What the digest has is not read from the sealed words. `Enters` stands in
// each contract and in no struct: it is about an edge and a departure, and these are new ones at each call.
ghost use Rattle.std.specs.Prelude.{◌≡◌, ◌+◌, ◌%◌, ◌<◌};
ghost use Rattle.records.specs.Format.{volume_of};
ghost use Rattle.travel.specs.Network.{piece_at, road_time, Enters, arrival};
ghost use Rattle.travel.specs.Digest.{piece_word, Stands};

use crate::digest::Timetable;
use crate::last::last_at;
use crate::road::road_duration;
use records::readers::way_at;
use records::tables::{PERIOD, PIECE_WORDS, Way};
use volume::sound::Opened;

// The content word of the piece in force at x, of those of edge e, which stand from word `at` up to word `end`. Most edges have one
// piece, and need no search.
pub fn word_in_force(opened: &Opened<'_>, e: usize, at: usize, end: usize, x: u64) -> usize
    requires e_bound { e < (volume_of opened.now.records.bytes.now).edges }
    requires stands { Stands (volume_of opened.now.records.bytes.now) e at end }
    ensures { result ≡ piece_word (volume_of opened.now.records.bytes.now) (piece_at (volume_of opened.now.records.bytes.now) e (x % (volume_of opened.now.records.bytes.now).period)) }
{
    if at + PIECE_WORDS == end {
        return at;
    }
    last_at(
        opened.records.bytes,
        at,
        PIECE_WORDS,
        (end - at) / PIECE_WORDS,
        (x % PERIOD) as u32,
    )
}

impl Timetable<'_> {
    // The duration of road k for who enters it at x.
    pub fn road_lasts(&self, k: usize, x: u64) -> u64
        requires { k < (volume_of self.now.opened.records.bytes.now).roads }
        ensures { result ≡ road_time (volume_of self.now.opened.records.bytes.now) k x }
    {
        match self.steady(k) {
            Some(d) => d,
            None => road_duration(&self.opened, k, x),
        }
    }

    // The duration of edge e for who enters it at x. Its pieces stand from word `at` up to word `end`.
    #[cycle(piece_duration_pieces_duration)]
    fn pieces_duration(&self, e: usize, at: usize, end: usize, x: u64) -> u64
        requires enters { Enters (volume_of self.now.opened.records.bytes.now) e x }
        requires stands { Stands (volume_of self.now.opened.records.bytes.now) e at end }
        ensures { x + result ≡ arrival (volume_of self.now.opened.records.bytes.now) e x }
    {
        let w = word_in_force(&self.opened, e, at, end, x);
        self.piece_duration(e, w, x)
    }

    // The same by the piece in force, which stands at word w: the road's, or the left half's and then the right half's from the second
    // at which the left one arrives. Where both halves' pieces stand is read before either half is followed, so that no read waits for
    // a walk.
    #[cycle(piece_duration_pieces_duration)]
    fn piece_duration(&self, e: usize, w: usize, x: u64) -> u64
        requires enters { Enters (volume_of self.now.opened.records.bytes.now) e x }
        requires w_value { w ≡ piece_word (volume_of self.now.opened.records.bytes.now) (piece_at (volume_of self.now.opened.records.bytes.now) e (x % (volume_of self.now.opened.records.bytes.now).period)) }
        ensures { x + result ≡ arrival (volume_of self.now.opened.records.bytes.now) e x }
    {
        match way_at(self.opened.records.bytes, w) {
            Way::Road(k) => self.road_lasts(k, x),
            Way::Turn(left, right) => {
                let left_at = self.pieces(left);
                let left_end = self.pieces(left + 1);
                let right_at = self.pieces(right);
                let right_end = self.pieces(right + 1);
                let a = self.pieces_duration(left, left_at, left_end, x);
                let b = self.pieces_duration(right, right_at, right_end, x + a);
                a + b
            }
        }
    }

    // The duration of edge e for who enters it at x.
    pub fn edge_duration(&self, e: usize, x: u64) -> u64
        requires { Enters (volume_of self.now.opened.records.bytes.now) e x }
        ensures { x + result ≡ arrival (volume_of self.now.opened.records.bytes.now) e x }
    {
        let at = self.pieces(e);
        let end = self.pieces(e + 1);
        self.pieces_duration(e, at, end, x)
    }
}
