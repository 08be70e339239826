// Travel times of the sample's roads and edges.
use block::refusal::Refusal;
use std::io;
use telling::line::{heading, told};
use telling::networks::SAMPLE;
use telling::page::lay;
use telling::say::Said;
use travel::{edge_time, road_time};

// A road or an edge, a departure, and the seconds that it should take.
type Case = (u32, u32, &'static str);

const ROADS: [Case; 10] = [
    (0, 0, "60"),
    (1, 0, "100"),
    (1, 1, "99"),
    (1, 60, "70"),
    (1, 100, "50"),
    (1, 86399, "99"),
    (1, 86401, "99"),
    (1, u32::MAX, "63"),
    (2, 43200, "150"),
    (3, 0, "refused 7 0"),
];

const EDGES: [Case; 10] = [
    (0, 0, "60"),
    (1, 60, "70"),
    (2, 0, "130"),
    (2, 70805, "150"),
    (2, 70806, "150"),
    (2, 86358, "150"),
    (2, 86359, "150"),
    (2, 86361, "149"),
    (2, 86399, "130"),
    (3, 0, "refused 7 0"),
];

// The lines of roads or edges, whose time is asked by `time`.
fn timed<F: Fn(&[u8], u32, u32) -> Result<u64, Refusal>>(
    rt: &impl Print,
    v: &[u8],
    what: &str,
    time: F,
    cases: &[Case],
) -> io::Result<()>
    requires { F.IsAlwaysCallable time }
{
    for &(k, departure, seconds) in cases {
        told(
            rt,
            format_args!("{what} {k} at {departure}"),
            Said(time(v, k, departure)),
            seconds,
        )?;
    }
    Ok(())
}

pub(crate) fn times(rt: &impl Print) -> io::Result<()> {
    heading(rt, "Travel times of the sample")?;
    let mut v = [0u8; 512];
    lay(&mut v, SAMPLE);
    timed(rt, &v, "road", road_time, &ROADS)?;
    timed(rt, &v, "edge", edge_time, &EDGES)
}
