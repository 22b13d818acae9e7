ghost use Rattle.std.specs.Prelude.{◌≡◌, false, is_some};
ghost use Rattle.grid.specs.References.{broken};
ghost use Rattle.grid.specs.Views.{of_grid};

use crate::grid::Grid;

mod calls;

// A grid whose references hold.
#[derive(Clone, Copy)]
pub struct Checked {
    pub grid: Grid,
    ghost whole: { is_some (broken (of_grid grid)) ≡ false },
}
