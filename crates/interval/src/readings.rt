ghost use Rattle.std.specs.Prelude.{◌≡◌, ◌<◌, ◌≤◌, if◌then◌else◌, nat_eq, slice_set, map};
ghost use Rattle.grid.specs.Views.{of_grid};
ghost use Rattle.interval.specs.Ranges.{highest_energy};
ghost use Rattle.interval.specs.Views.{sent_of, taken_of};
ghost use Rattle.interval.specs.Words.{energy, kind, point, readings_from, sent_kind};
ghost use Rattle.interval.specs.Steps.{Reached, ReadsOn, ReadWhole};

use crate::interval::Reading;
use crate::kind::Kind;
use crate::part::Word;
use crate::word::{check_closing, check_reading};
use grid::grid::Grid;
use units::refusal::Refusal;

// Stores a reading, which is `Sent` or `Taken`.
fn store(readings: &mut [Reading; 128], word: Word)
    requires place { point word.0 < 128 }
    requires range { energy word.0 ≤ highest_energy }
    ensures sent { map sent_of readings.new ≡ (if nat_eq (kind word.0) sent_kind then slice_set (map sent_of readings.old) (point word.0) (energy word.0) else map sent_of readings.old) }
    ensures taken { map taken_of readings.new ≡ (if nat_eq (kind word.0) sent_kind then map taken_of readings.old else slice_set (map taken_of readings.old) (point word.0) (energy word.0)) }
{
    // By `as`: a `u32` fits in a `usize`.
    let point = word.point() as usize;
    if word.is(Kind::Sent) {
        readings[point].sent = word.energy();
    } else {
        readings[point].taken = word.energy();
    }
}

// The index of the first reading, or of the closing word where there is no reading.
fn readings_from(grid: &Grid) -> usize
    ensures { result ≡ readings_from (of_grid grid.now) }
{
    1 + grid.region_count + grid.links.len()
}

// Reads from the first reading to the closing word, and answers how many words the interval has.
pub(crate) fn read_readings(grid: &Grid, words: &[u32]) -> Result<([Reading; 128], usize), Refusal>
    requires { Reached (of_grid grid.now) words.now (readings_from (of_grid grid.now)) }
    ensures { ReadsOn result (of_grid grid.now) words.now
        (λ t. ReadWhole (of_grid grid.now) words.now t.1 (map sent_of t.0) (map taken_of t.0)) }
{
    let mut readings = [Reading { sent: 0, taken: 0 }; 128];
    let mut least = 0;
    let points = grid.points.len();
    let from = readings_from(grid);
    for (i, bits) in words[from..].iter().enumerate() {
        let word = Word(*bits);
        let j = from + i;
        let closes = word.is(Kind::Closing);
        if closes {
            check_closing(word, j)?;
            return Ok((readings, j + 1));
        }
        check_reading(word, j, points, least)?;
        store(&mut readings, word);
        least = word.rank() + 1;
    }
    Err(Refusal::WordMissing(words.len()))
}
