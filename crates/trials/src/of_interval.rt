use crate::told::told;
use grid::grid::Grid;
use interval::read::read;
use register::entry::{Corridor, Link, Point};
use std::test::Fail;
use units::fixed_list::FixedList;
use units::refusal::Refusal;

const WORDS: [u32; 9] = [
    0x1000_0000,
    0x2000_05dc,
    0x2100_03e8,
    0x30ff_e250,
    0x4000_7530,
    0x5010_88b8,
    0x4020_c350,
    0x5030_9c40,
    0x6000_0008,
];

// Two regions, one link and four points.
fn two_regions() -> Grid {
    let corridor = Corridor {
        region1: 0,
        region2: 1,
    };
    let link = Link {
        corridor: 0,
        part1: 5_000,
    };
    let point = Point {
        region: 0,
        dna: 0,
        marginal: 10_000,
        distribution: 10_000,
    };
    Grid {
        region_count: 2,
        corridors: FixedList::first_of([corridor; 8], 1),
        links: FixedList::first_of([link; 8], 1),
        points: FixedList::first_of([point; 128], 4),
        dnas: FixedList::new(),
    }
}

// The words used, the two prices and the flow, and what each of the four points sent out and took in.
fn figures(words: &[u32]) -> Result<(usize, [i32; 3], [u32; 4], [u32; 4]), Refusal> {
    let (interval, used) = read(&two_regions(), words)?;
    let prices = interval.prices;
    let [a, b, c, d, ..] = interval.readings;
    Ok((
        used,
        [prices[0], prices[1], interval.flows[0]],
        [a.sent, b.sent, c.sent, d.sent],
        [a.taken, b.taken, c.taken, d.taken],
    ))
}

// How many words are used, or the refusal's number and place.
fn used(words: &[u32]) -> Result<usize, (u32, usize)> {
    told(read(&two_regions(), words)).map(|(_, used)| used)
}

#[test]
fn example_is_read(rt: HostRuntime) -> Result<(), Fail> {
    let (used, market, sent, taken) = figures(&WORDS).ok().ok_or("refused")?;
    assert_eq!(rt; used, 9);
    assert_eq!(rt; market, [1_500, 1_000, -7_600]);
    assert_eq!(rt; sent, [30_000, 0, 50_000, 0]);
    assert_eq!(rt; taken, [0, 35_000, 0, 40_000]);
    Ok(())
}

#[test]
fn count_is_checked(rt: HostRuntime) {
    let mut words = WORDS;
    words[8] = 0x6000_0009;
    assert_eq!(rt; used(&words), Err((5, 8)));
    assert_eq!(rt; used(&words[0..8]), Err((1, 8)));
}

#[test]
fn flow_is_checked(rt: HostRuntime) {
    let mut words = WORDS;
    words[3] = 0x3003_0d40;
    assert_eq!(rt; used(&words), Ok(9));
    words[3] = 0x3003_0d41;
    assert_eq!(rt; used(&words), Err((3, 3)));
}
