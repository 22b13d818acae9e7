ghost use Rattle.std.specs.Prelude.{◌≡◌, ◌<◌, ◌≤◌, length};
ghost use Rattle.interval.specs.Ranges.{number_limit, lowest_price, highest_price, lowest_flow, highest_flow, highest_energy, Between};

// What a point sent out and took in, in kWh.
#[derive(Clone, Copy)]
pub struct Reading {
    pub sent: u32,
    pub taken: u32,
    ghost sent_range: { sent ≤ highest_energy },
    ghost taken_range: { taken ≤ highest_energy },
}

// The figures of one interval: its number in the month, a price for each region in cents per MWh, a flow in kWh for each
// link, and a reading for each point. How many of each are entered stands in the grid; any interval may be read beside any grid.
#[derive(Clone, Copy)]
pub struct Interval {
    pub number: u32,
    pub prices: [i32; 8],
    pub flows: [i32; 8],
    pub readings: [Reading; 128],
    ghost price_slots: { length prices ≡ 8 },
    ghost flow_slots: { length flows ≡ 8 },
    ghost reading_slots: { length readings ≡ 128 },
    ghost number_range: { number < number_limit },
    ghost price_range: { Between lowest_price highest_price prices },
    ghost flow_range: { Between lowest_flow highest_flow flows },
}
