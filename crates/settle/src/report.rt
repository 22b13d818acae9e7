// The lines that show flows, shares and an interval that was read.
use chosen::rule::Pile;
use grid::grid::Grid;
use interval::interval::{Interval, Reading};
use interval::metered::Metered;
use losses::book::LossBook;
use losses::direction::Direction;
use sharing::rule::SharingRule;
use std::{fmt, io};
use transfers::links::{Interchange, Links};
use transfers::sign::Sign;
use units::amount::Amount;

// Items in a row, each after a blank.
#[derive(Drop)]
struct Listed<'a, T>(&'a [T]);

impl<T: fmt::Display> fmt::Display for Listed<'_, T> {
    fn fmt<W: fmt::Write>(&self, f: &mut fmt::Formatter<W>) -> fmt::Result {
        for item in self.0 {
            write!(f, " {item}")?;
        }
        Ok(())
    }
}

// A way that energy goes at a point.
#[derive(Clone, Copy)]
enum Way {
    Sent,
    Taken,
}

// What the readings say of one way where it is not 0, each as WAY POINT KWH after a blank.
#[derive(Drop)]
struct Readings<'a>(Way, &'a [Reading]);

impl fmt::Display for Readings<'_> {
    fn fmt<W: fmt::Write>(&self, f: &mut fmt::Formatter<W>) -> fmt::Result {
        for (point, reading) in self.1.iter().enumerate() {
            let (way, energy) = match self.0 {
                Way::Sent => ("sent", reading.sent),
                Way::Taken => ("taken", reading.taken),
            };
            if energy != 0 {
                write!(f, " {way} {point} {energy}")?;
            }
        }
        Ok(())
    }
}

// Each link's loss, entry and exit, each corridor's residue, and each region's net export.
pub fn flows<B: LossBook>(rt: &HostRuntime, links: &Links<B>) -> io::Result<()> {
    let metered = links.metered;
    for (link, flow) in metered.interval.flows.iter().enumerate() {
        if let Some(c) = links.carried(link) {
            // By `as`: a link's number is below 8, and `try_from` would need an answer for what cannot happen.
            let loss = links.book.loss(link as u32, *flow);
            println!(rt;
                "link {link} from {} to {} loss {loss} entry {} exit {}",
                c.exporter, c.importer, c.entry, c.exit
            )?;
        }
    }
    let sums = links.interchange();
    corridors(rt, metered, &sums)?;
    regions(rt, metered, &sums)
}

fn corridors(rt: &HostRuntime, metered: Metered, sums: &Interchange) -> io::Result<()> {
    let residues = &sums.residues[..metered.grid.grid.corridors.len()];
    for (corridor, (residue, flows)) in residues.iter().zip(&sums.flows).enumerate() {
        let amount = Amount::of_grains(*residue);
        println!(rt;
            "corridor {corridor} cents {} grains {} direction {} sign {}",
            amount.cents(),
            amount.grains(),
            usize::from(Direction::of(*flows)),
            usize::from(Sign::of(*residue))
        )?;
    }
    Ok(())
}

fn regions(rt: &HostRuntime, metered: Metered, sums: &Interchange) -> io::Result<()> {
    let exports = &sums.exports[..metered.grid.grid.region_count];
    for (region, export) in exports.iter().enumerate() {
        println!(rt; "region {region} net {export}")?;
    }
    Ok(())
}

// The shares of an amount, or that the rule has too many owners to show.
#[inline(never)]
pub fn shares(rt: &HostRuntime, rule: &Pile, amount: i64) -> io::Result<()> {
    // By `as`: a `u32` fits in a `usize`.
    let owners = rule.owners() as usize;
    if owners > 64 {
        return println!(rt; "share {amount}: over 64 owners");
    }
    let mut row = [0; 64];
    rule.give(amount, &mut row);
    let shares = Listed(&row[..owners]);
    println!(rt; "share {amount}:{shares}")
}

// The figures of an interval, and how many words it used.
pub fn interval(rt: &HostRuntime, grid: &Grid, metered: &Interval, used: usize) -> io::Result<()> {
    let number = metered.number;
    let prices = Listed(&metered.prices[..grid.region_count.min(8)]);
    let flows = Listed(&metered.flows[..grid.links.len().min(8)]);
    let sent = Readings(Way::Sent, &metered.readings);
    let taken = Readings(Way::Taken, &metered.readings);
    println!(rt; "read words {used} number {number} prices{prices} flows{flows}{sent}{taken}")
}
