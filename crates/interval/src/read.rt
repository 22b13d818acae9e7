ghost use Rattle.std.specs.Prelude.{◌≡◌, ◌≤◌, take, IfOk, MatchResult};
ghost use Rattle.std.specs.Result.{result_map_both};
ghost use Rattle.units.specs.Refusals.{answer};
ghost use Rattle.grid.specs.Views.{of_grid};
ghost use Rattle.interval.specs.Kinds.{number};
ghost use Rattle.interval.specs.Words.{figures, read as page_read};
ghost use Rattle.interval.specs.Spelling.{Spells, Unspelled};
ghost use Rattle.interval.specs.Views.{of_interval};
ghost use Rattle.interval.specs.Steps.{FiguresOrFault};

use crate::form::{FLOW, Form, PRICE};
use crate::interval::Interval;
use crate::readings::read_readings;
use crate::word::{figure_at, opening_at};
use grid::grid::Grid;
use units::refusal::Refusal;

// Reads `n` figures of one form, from word `start` on.
fn read_figures(words: &[u32], start: usize, n: usize, form: Form) -> Result<[i32; 8], Refusal>
    requires few { n ≤ 8 }
    requires low { start ≤ 9 }
    ensures { FiguresOrFault result words.now start n (number form.kind) form.low form.high }
{
    let mut figures = [0; 8];
    for (i, figure) in figures[..n].iter_mut().enumerate() {
        *figure = figure_at(words, start + i, i, form)?;
    }
    Ok(figures)
}

// The interval that the words begin with, and how many words it has; or the first refusal, word by word.
pub fn read(grid: &Grid, words: &[u32]) -> Result<(Interval, usize), Refusal>
    ensures answers { answer (result_map_both (λ t. t.1) (λ e. e) result) ≡ page_read (of_grid grid.now) words.now }
    ensures says { IfOk result (λ t. of_interval grid.now t.0 ≡ figures (of_grid grid.now) (take t.1 words.now)) }
    ensures spelled { MatchResult result (λ t. Spells (of_grid grid.now) (take t.1 words.now) (of_interval grid.now t.0))
        (λ _. Unspelled (of_grid grid.now) words.now) }
{
    let number = opening_at(words)?;
    let prices = read_figures(words, 1, grid.region_count, PRICE)?;
    let flows = read_figures(words, 1 + grid.region_count, grid.links.len(), FLOW)?;
    let (readings, used) = read_readings(grid, words)?;
    let interval = Interval {
        number,
        prices,
        flows,
        readings,
    };
    Ok((interval, used))
}
