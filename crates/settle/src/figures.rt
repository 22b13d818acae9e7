// The words of an interval that has no readings.
ghost use Rattle.std.specs.Prelude.{◌<◌, ◌^◌};

use crate::script::Fault;
use std::alloc::Global;

// The kind of a word. The box reads more kinds than a command writes, and its own type for them stays inside it.
#[derive(Clone, Copy)]
enum Kind {
    Opening = 1,
    Price = 2,
    Flow = 3,
    Closing = 6,
}

// A word with its kind in the top four bits and a number in the others.
fn word(kind: Kind, number: u32) -> u32
    requires { number < 2 ^ 28 }
{
    // By `as`, here and below: each fits, and `try_from` would need an answer for what cannot happen.
    ((kind as u32) << 28) + number
}

// The word of a region's or link's figure: 4 bits for the number of the region or link, and 24 for the figure, in two's
// complement.
fn figure_word(kind: Kind, i: usize, figure: i64) -> Result<u32, Fault> {
    if i > 15 || figure < -0x80_0000 || figure > 0x7f_ffff {
        return Err(Fault::BadNumber);
    }
    let low = figure.rem_euclid(0x100_0000) as u32;
    Ok(word(kind, ((i as u32) << 24) + low))
}

// Appends the words of one kind of figures.
fn push_figures(all: &mut Vec<u32>, kind: Kind, figures: &[&str]) -> Result<(), Fault> {
    for (i, figure) in figures.iter().enumerate() {
        all.push(figure_word(kind, i, figure.parse()?)?)?;
    }
    Ok(())
}

// The words of `F.. prices P..`.
pub fn interval_words(heap: Global, words: &[&str]) -> Result<Vec<u32>, Fault> {
    let mut parts = words.splitn(2, |word| *word == "prices");
    let (Some(flows), Some(prices)) = (parts.next(), parts.next()) else {
        return Err(Fault::WordCount);
    };
    if words.len() > 33 {
        return Err(Fault::WordCount);
    }
    let mut all = Vec::new(heap);
    all.push(word(Kind::Opening, 0))?;
    push_figures(&mut all, Kind::Price, prices)?;
    push_figures(&mut all, Kind::Flow, flows)?;
    // The closing word's number is the count of the words before it: the opening word and a word for each figure. It is
    // `words.len()`, since `prices` is a word of the command too.
    all.push(word(Kind::Closing, words.len() as u32))?;
    Ok(all)
}
