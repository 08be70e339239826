// Opening a volume: the head, the passes over all roads and all edges, and the first refusal with its place. Answers to document 01,
// "The volume". What the words mean is the crate `records`', when one road or edge obeys `rules`'. Travel times are said in the crate
// `travel`.
#![tactic(auto)]

ghost use Rattle.std.specs.Prelude.{◌≡◌, ◌*◌, ◌/◌, ◌≤◌, length, IfOk, IfErr};
ghost use Rattle.block.specs.Choose.{choose};
ghost use Rattle.records.specs.Format.{volume_of, counts_of, Few};
ghost use Rattle.rules.specs.Rules.{head_fits, filler_zero, counts_rule};
ghost use Rattle.volume.specs.Open.{records_of, open_of};

use crate::edge_pass::edges_pass;
use crate::road_pass::roads_pass;
use crate::sound::Opened;
use block::refusal::Refusal;
use block::{content, first_bad, is_whole};
use records::readers::{Records, head};
use records::tables::{Counts, tables_of, words_of};

pub mod edge_pass;
pub mod repeats;
pub mod road_pass;
pub mod sound;

// Are the counts within the limits?
fn head_fits(c: Counts) -> bool
    ensures { result ≡ head_fits c }
{
    1 <= c.junctions
        && (c.junctions <= 1024
            && (c.roads <= 4096 && (c.points <= 65535 && (c.edges <= 16384 && c.pieces <= 65535))))
}

// Are the content words of n blocks zero from word `words` on?
fn filler_zero(v: &[u8], words: usize, blocks: usize) -> bool
    requires { (512 * blocks ≤ length v.now) × (words ≤ 126 * blocks) × (blocks ≤ 3381) }
    ensures { result ≡ filler_zero v.now words blocks }
{
    let n = 126 * blocks - words;
    for i in 0..n {
        if content(v, words + i) != 0 {
            return false;
        }
    }
    true
}

// Roads, then edges.
fn open_records(r: &Records<'_>) -> Result<Counts, Refusal>
    requires { Few r.now.counts }
    ensures { result ≡ records_of (volume_of r.now.bytes.now) }
{
    roads_pass(r)?;
    edges_pass(r)?;
    Ok(r.counts)
}

// Head, block count and filler, then the records.
fn open_counts(v: &[u8], blocks: usize) -> Result<Counts, Refusal>
    requires { (blocks ≡ length v.now / 512) × (512 ≤ length v.now) }
    ensures { result ≡ choose (counts_rule v.now (volume_of v.now) blocks) (records_of (volume_of v.now)) (Err Refusal.Head) }
{
    let counts = head(v);
    if !head_fits(counts) {
        return Err(Refusal::Head);
    }
    let words = words_of(counts);
    if blocks != (words + 125) / 126 {
        return Err(Refusal::Head);
    }
    if !filler_zero(v, words, blocks) {
        return Err(Refusal::Head);
    }
    let tables = tables_of(counts);
    open_records(&Records {
        bytes: v,
        counts,
        tables,
    })
}

// Opens a volume: its counts, or the first refusal.
pub fn open(v: &[u8]) -> Result<Counts, Refusal>
    ensures { result ≡ open_of v.now }
{
    let size = v.len();
    if !is_whole(size) {
        return Err(Refusal::Length);
    }
    let blocks = size / 512;
    if let Some(bad) = first_bad(v, blocks) {
        return Err(Refusal::Sums(bad));
    }
    let edition = content(v, 0);
    if edition != 1 {
        return Err(Refusal::Edition);
    }
    open_counts(v, blocks)
}

// Opens a volume for whoever asks more of it than its counts.
pub fn read(v: &[u8]) -> Result<Opened<'_>, Refusal>
    ensures ok { IfOk result (λ opened. (open_of v.now ≡ Ok opened.records.counts) × (opened.records.bytes.now ≡ v.now)) }
    ensures err { IfErr result (λ why. open_of v.now ≡ Err why) }
{
    let counts = open(v)?;
    let records = Records::new(v, tables_of(counts));
    Ok(Opened { records })
}
