// The five kinds of entries, their ranges, and how many of each a register holds.
ghost use Rattle.std.specs.Prelude.{◌≡◌, ◌≤◌, ℕ, length, Option, not, position};
ghost use Rattle.register.specs.Fields.{first_out, numbered, region_unfit, corridor_unfit, link_unfit, point_unfit, dna_unfit, factor};

pub trait Entry: Copy {
    // The most entries of this kind that a roll holds.
    const MOST: usize;

    ghost MOST: { ℕ };

    // The first field out of range, counted from 0: its place in the refusal table.
    ghost unfit: { Self → Option ℕ };

    fn unfit_field(&self) -> Option<u32>
        ensures { result ≡ unfit self.now };
}

// A function of its own, since the check finds what `position` gives only there.
fn first_false(tests: &[bool]) -> Option<usize>
    ensures { result ≡ position not tests.now }
{
    tests.iter().position(|passes| !*passes)
}

// The first field that does not fit.
#[tactic(auto, using(crate::proofs::Firsts::first_out_is))]
fn first_out(fits: &[bool]) -> Option<u32>
    requires { length fits.now ≤ 4 }
    ensures { result ≡ first_out 0 fits.now }
{
    // By `as`: at most 4, and `try_from` would need an answer for what cannot happen.
    first_false(fits).map(|i| i as u32)
}

// The asset that a field names.
fn numbered(field: u32) -> Option<usize>
    ensures { result ≡ numbered field }
{
    // By `as`: a `u32` fits in a `usize`.
    (field as usize).checked_sub(1)
}

// A region of the market, by its code.
#[derive(Clone, Copy, Default, PartialEq, Eq)]
pub struct Region {
    pub code: u32,
}

// A pair of regions with at least one link.
#[derive(Clone, Copy, Default, PartialEq, Eq)]
pub struct Corridor {
    pub region1: u32,
    pub region2: u32,
}

// A metered link of a corridor. Region 1 bears `part1` ten-thousandths of its loss, region 2 the rest.
#[derive(Clone, Copy, Default, PartialEq, Eq)]
pub struct Link {
    pub corridor: u32,
    pub part1: u32,
}

// A connection point with its meter. `dna` is the number plus one of its designated network asset, or 0 for none: a
// number, as a caller over the C interface hands it in, so that one out of range can be refused by its place; `asset`
// reads it. `marginal` and `distribution` are loss factors in ten-thousandths.
#[derive(Clone, Copy, Default, PartialEq, Eq)]
pub struct Point {
    pub region: u32,
    pub dna: u32,
    pub marginal: u32,
    pub distribution: u32,
}

impl Point {
    // The asset that the point belongs to.
    pub fn asset(&self) -> Option<usize>
        ensures { result ≡ numbered self.now.dna }
    {
        numbered(self.dna)
    }

    // The factor of the point in ten-thousandths: the product of its two, to the nearest whole, halves up.
    pub fn factor(&self) -> u64
        ensures { result ≡ factor self.now }
    {
        (u64::from(self.marginal) * u64::from(self.distribution) + 5_000) / 10_000
    }
}

// A designated network asset. `downstream` is the number plus one of the asset downstream, or 0 for the existing
// network, a number for the same reason; `below` reads it. `boundary` is the marginal factor of the downstream boundary
// in ten-thousandths.
#[derive(Clone, Copy, Default, PartialEq, Eq)]
pub struct Dna {
    pub region: u32,
    pub downstream: u32,
    pub boundary: u32,
}

impl Dna {
    // The asset downstream.
    pub fn below(&self) -> Option<usize>
        ensures { result ≡ numbered self.now.downstream }
    {
        numbered(self.downstream)
    }
}

impl Entry for Region {
    const MOST: usize = 8;

    ghost MOST = { 8 };

    ghost unfit = { region_unfit };

    fn unfit_field(&self) -> Option<u32> {
        first_out(&[self.code != 0])
    }
}

impl Entry for Corridor {
    const MOST: usize = 8;

    ghost MOST = { 8 };

    ghost unfit = { corridor_unfit };

    fn unfit_field(&self) -> Option<u32> {
        first_out(&[self.region1 <= 7, self.region2 <= 7])
    }
}

impl Entry for Link {
    const MOST: usize = 8;

    ghost MOST = { 8 };

    ghost unfit = { link_unfit };

    fn unfit_field(&self) -> Option<u32> {
        first_out(&[self.corridor <= 7, self.part1 <= 10_000])
    }
}

impl Entry for Point {
    const MOST: usize = 128;

    ghost MOST = { 128 };

    ghost unfit = { point_unfit };

    fn unfit_field(&self) -> Option<u32> {
        first_out(&[
            self.region <= 7,
            self.dna <= 8,
            (5_000..=15_000).contains(&self.marginal),
            (8_000..=12_000).contains(&self.distribution),
        ])
    }
}

impl Entry for Dna {
    const MOST: usize = 8;

    ghost MOST = { 8 };

    ghost unfit = { dna_unfit };

    fn unfit_field(&self) -> Option<u32> {
        first_out(&[
            self.region <= 7,
            self.downstream <= 8,
            (5_000..=15_000).contains(&self.boundary),
        ])
    }
}
