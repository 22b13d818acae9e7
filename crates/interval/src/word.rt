// The tests of a word.
ghost use Rattle.std.specs.Prelude.{◌≡◌, ◌<◌, length, ◌≤ℤ◌, None};
ghost use Rattle.interval.specs.Words.{closing, count, figure, from_to, opening, present, reading, signed};
ghost use Rattle.interval.specs.Words.{word as word_at};
ghost use Rattle.interval.specs.Kinds.{number};
ghost use Rattle.interval.specs.Steps.{Passes};

use crate::form::Form;
use crate::kind::Kind;
use crate::part::Word;
use units::refusal::Refusal;

// The highest energy of a reading, in kWh.
const HIGHEST_ENERGY: u32 = 200_000;

// Word `j`, which is needed.
fn needed(words: &[u32], j: usize) -> Result<Word, Refusal>
    ensures { Passes result (present words.now j None) (λ w. (j < length words.now) × (w.0 ≡ word_at words.now j)) }
{
    words
        .get(j)
        .map(|bits| Word(*bits))
        .ok_or(Refusal::WordMissing(words.len()))
}

// The number of the interval that the words begin with.
pub(crate) fn opening_at(words: &[u32]) -> Result<u32, Refusal>
    ensures { Passes result (present words.now 0 (opening 0 (word_at words.now 0)))
        (λ n. (0 < length words.now) × (n ≡ count (word_at words.now 0))) }
{
    let word = needed(words, 0)?;
    if !word.is(Kind::Opening) {
        return Err(Refusal::KindNotAllowed(0));
    }
    Ok(word.count())
}

// The figure of region or link `i`, which word `j` holds.
pub(crate) fn figure_at(words: &[u32], j: usize, i: usize, form: Form) -> Result<i32, Refusal>
    ensures { Passes result (present words.now j (figure (number form.kind) i (from_to form.low form.high) j (word_at words.now j)))
        (λ z. (j < length words.now) × (z ≡ signed (word_at words.now j)) × (form.low ≤ℤ z) × (z ≤ℤ form.high)) }
{
    let word = needed(words, j)?;
    if !word.is(form.kind) {
        return Err(Refusal::KindNotAllowed(j));
    }
    // By `as`, here and below: a `u32` fits in a `usize`, and `try_from` would need an answer for what cannot happen.
    if word.ordinal() as usize != i {
        return Err(Refusal::OutOfOrder(j));
    }
    let figure = word.signed();
    if figure < form.low || figure > form.high {
        return Err(Refusal::OutOfRange(j));
    }
    Ok(figure)
}

// Passes word `j` as a reading of one of the points.
pub(crate) fn check_reading(word: Word, j: usize, points: usize, least: u32) -> Result<(), Refusal>
    ensures { Passes result (reading points least j word.0) (λ _. Unit {0}) }
{
    if !word.is(Kind::Sent) && !word.is(Kind::Taken) {
        return Err(Refusal::KindNotAllowed(j));
    }
    if word.rank() < least {
        return Err(Refusal::OutOfOrder(j));
    }
    if word.point() as usize >= points || word.energy() > HIGHEST_ENERGY {
        return Err(Refusal::OutOfRange(j));
    }
    Ok(())
}

// Passes word `j` as the closing one.
pub(crate) fn check_closing(word: Word, j: usize) -> Result<(), Refusal>
    ensures { Passes result (closing j word.0) (λ _. Unit {0}) }
{
    if word.count() as usize != j {
        return Err(Refusal::WrongCount(j));
    }
    Ok(())
}
