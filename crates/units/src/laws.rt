ghost use Rattle.units.specs.Laws.{RingLaw, FloorLaw, TotalLaw, TabulateLaw, FirstLaw, OverLaw};

// Does nothing: its contract is what is proved of the definitions that the other crates share.
pub fn laws_hold()
    ensures ring { RingLaw }
    ensures floors { FloorLaw }
    ensures totals { TotalLaw }
    ensures lists { TabulateLaw }
    ensures firsts { FirstLaw }
    ensures rows { OverLaw }
{}
