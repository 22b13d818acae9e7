ghost use Rattle.residue.specs.Small.{Small};

// What an interval credits to each pot in grains, and each region's net export in node units.
#[derive(Clone, Copy)]
pub struct Credits {
    pub pots: [i64; 48],
    pub nets: [i64; 8],
    ghost pots_small: { Small 3000000000000000000 pots },
    ghost nets_small: { Small 64000000000 nets },
}
