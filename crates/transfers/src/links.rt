// What the links carry in an interval, and the residue between regions.
ghost use Rattle.std.specs.Prelude.{◌≡◌, ◌+◌, ◌*◌, ◌<◌, ◌≤◌, length, pos, ◌-ℤ◌, ◌≤ℤ◌, IfSome, if◌then◌else◌, Some, None, nat_lt, slice_index_or, unsigned_abs};
ghost use Rattle.units.specs.Sums.{total, tabulate};
ghost use Rattle.interval.specs.Metered.{network_of, figures_of};
ghost use Rattle.transfers.specs.Carries.{carried as carried_by, Carries, SumsOf};
ghost use Rattle.transfers.specs.Views.{of_links};
ghost use Rattle.transfers.specs.Links.{net_export, link_residue, corridor_residue, corridor_flow, lost};

use crate::sums::add_at;
use crate::transfer::ends;
use crate::worth::worth;
use interval::metered::Metered;
use losses::book::LossBook;
use register::entry::{Corridor, Link};

// What a link carries from the exporting region to the importing one: what enters and what leaves it, in node units.
#[derive(Clone, Copy)]
pub struct Carried {
    pub exporter: usize,
    pub importer: usize,
    pub entry: i64,
    pub exit: i64,
}

// What the links sum up to: each region's net export in node units, each corridor's residue in grains, and each
// corridor's metered flows in kWh. Three arrays: each definition is a list of its own, and an array of pairs would need
// a `map` in each contract.
#[derive(Clone, Copy)]
pub struct Interchange {
    pub exports: [i64; 8],
    pub residues: [i64; 8],
    pub flows: [i64; 8],
}

// The links of what is metered, with the book of their losses.
#[derive(Clone, Copy)]
pub struct Links<'a, B> {
    pub metered: Metered<'a>,
    pub book: &'a B,
}

impl<'a, B: LossBook> Links<'a, B> {
    fn carried_at(&self, link: usize) -> Carried
        requires { link < 8 }
        ensures { of_links B.LossBook.meaning Carries self.now link result }
    {
        let grid = &self.metered.grid.grid;
        let entered = grid.entry_at::<Link>(link);
        // By `as`, here and below: a `u32` fits in a `usize`, a link's number is below 8, and `try_from` would need an
        // answer for what cannot happen.
        let corridor = grid.entry_at::<Corridor>(entered.corridor as usize);
        let flow = self.metered.flow_over(link);
        let (entry, exit) = ends(flow, entered.part1, self.book.loss(link as u32, flow));
        let (exporter, importer) = if flow > 0 {
            (corridor.region1, corridor.region2)
        } else {
            (corridor.region2, corridor.region1)
        };
        Carried {
            exporter: exporter as usize,
            importer: importer as usize,
            entry,
            exit,
        }
    }

    // What a link leaves between its two regions, in grains.
    fn residue_of(&self, link: usize, c: &Carried) -> i64
        requires { of_links B.LossBook.meaning Carries self.now link c.now }
        ensures value { result ≡ of_links B.LossBook.meaning link_residue self.now link }
        ensures small { unsigned_abs result ≤ 16000000000000000 }
    {
        worth(&self.metered, c.importer, c.exit) - worth(&self.metered, c.exporter, c.entry)
    }

    // What link `link` carries; none beyond the last. What enters and does not leave is lost, and nothing leaves the wrong way.
    pub fn carried(&self, link: usize) -> Option<Carried>
        ensures value { result ≡ (if nat_lt link (length (network_of self.now.metered).links) then Some (of_links B.LossBook.meaning carried_by self.now link) else None) }
        ensures loss { IfSome result (λ c. c.entry -ℤ c.exit ≡ pos (10000 * of_links B.LossBook.meaning lost self.now link)) }
        ensures outward { IfSome result (λ c. pos 0 ≤ℤ c.exit) }
    {
        if link < self.metered.grid.grid.links.len() {
            Some(self.carried_at(link))
        } else {
            None
        }
    }

    // The residue of link `link` in grains; none beyond the last.
    pub fn residue(&self, link: usize) -> Option<i64>
        ensures { result ≡ (if nat_lt link (length (network_of self.now.metered).links) then Some (of_links B.LossBook.meaning link_residue self.now link) else None) }
    {
        let c = self.carried(link)?;
        Some(self.residue_of(link, &c))
    }

    // Adds what one more link carries.
    fn add_link(&self, link: usize, sums: &mut Interchange)
        requires entered { link < 8 }
        requires before { of_links B.LossBook.meaning SumsOf self.now link sums.old }
        ensures { of_links B.LossBook.meaning SumsOf self.now (link + 1) sums.new }
    {
        let c = self.carried_at(link);
        let residue = self.residue_of(link, &c);
        let corridor = self.metered.grid.grid.entry_at::<Link>(link).corridor as usize;
        let flow = i64::from(self.metered.flow_over(link));
        add_at(&mut sums.exports, c.exporter, c.entry);
        add_at(&mut sums.exports, c.importer, -c.exit);
        add_at(&mut sums.residues, corridor, residue);
        add_at(&mut sums.flows, corridor, flow);
    }

    // The sums over all links. All net exports together are what the links lose.
    pub fn interchange(&self) -> Interchange
        ensures exports { result.exports ≡ tabulate 8 (of_links B.LossBook.meaning net_export self.now) }
        ensures residues { result.residues ≡ tabulate 8 (of_links B.LossBook.meaning corridor_residue self.now) }
        ensures flows { result.flows ≡ tabulate 8 (corridor_flow (network_of self.now.metered) (figures_of self.now.metered)) }
        ensures losses { total 8 (λ k. slice_index_or result.exports k (pos 0)) ≡ total (length (network_of self.now.metered).links) (λ l. pos (10000 * of_links B.LossBook.meaning lost self.now l)) }
    {
        let mut sums = Interchange {
            exports: [0; 8],
            residues: [0; 8],
            flows: [0; 8],
        };
        // By number, since the book is asked by it.
        for link in 0..self.metered.grid.grid.links.len() {
            self.add_link(link, &mut sums);
        }
        sums
    }
}
