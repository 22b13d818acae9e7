ghost use Rattle.std.specs.Prelude.{◌≡◌, ◌≤◌, slice_index_or};
ghost use Rattle.units.specs.FixedLists.{listed};
ghost use Rattle.register.specs.Rolls.{held};
ghost use Rattle.register.specs.Contents.{contents, network};
ghost use Rattle.grid.specs.Views.{of_grid};

use crate::entered::Entered;
use crate::grid::Grid;
use register::entry::Entry;
use register::register::Register;
use register::roll::Roll;
use units::fixed_list::FixedList;

// A copy of the roll's entries.
fn copied<E: Entry + Default, const N: usize>(roll: &mut Roll<E>) -> FixedList<E, N>
    requires { E.MOST ≤ N }
    ensures copied { listed result ≡ (held roll.old).entries }
    ensures same { roll.new ≡ roll.old }
{
    let mut items = [E::default(); N];
    let count = roll.copy_to(&mut items);
    FixedList::first_of(items, count)
}

impl Grid {
    // A copy of the register's entries.
    pub fn copied(register: &mut Register) -> Grid
        ensures copied { of_grid result ≡ network register.old }
        ensures same { contents register.new ≡ contents register.old }
    {
        Grid {
            region_count: register.regions.len(),
            corridors: copied(&mut register.corridors),
            links: copied(&mut register.links),
            points: copied(&mut register.points),
            dnas: copied(&mut register.dnas),
        }
    }

    // The entry of number `i` of its kind; zeros beyond the last.
    pub fn entry_at<E: Entered>(&self, i: usize) -> E
        ensures { result ≡ slice_index_or (E.roll (of_grid self.now)) i E.zero }
    {
        E::entered(self).get(i).copied().unwrap_or_default()
    }
}
