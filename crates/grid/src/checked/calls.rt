ghost use Rattle.std.specs.Prelude.{◌≡◌};
ghost use Rattle.std.specs.Result.{result_map_both};
ghost use Rattle.units.specs.Refusals.{answer};
ghost use Rattle.register.specs.Contents.{contents, network};
ghost use Rattle.grid.specs.References.{unless_broken};
ghost use Rattle.grid.specs.Checks.{of_checked};

use crate::checked::Checked;
use crate::grid::Grid;
use register::register::Register;
use units::refusal::Refusal;

impl Checked {
    // A copy of the register's entries, or the refusal of the first whose reference fails.
    pub fn copied(register: &mut Register) -> Result<Checked, Refusal>
        ensures copied { answer (result_map_both of_checked (λ e. e) result) ≡ unless_broken (network register.old) (network register.old) }
        ensures same { contents register.new ≡ contents register.old }
    {
        let grid = Grid::copied(register);
        grid.references()?;
        Ok(Checked { grid })
    }
}
