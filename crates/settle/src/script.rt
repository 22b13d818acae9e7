// The commands of a script: a line is a command with its words, and `#` starts a comment.
use crate::figures::interval_words;
use register::entry::{Corridor, Dna, Link, Point, Region};
use std::alloc::{AllocError, Global};
use std::num::ParseIntError;
use std::str::{FromStr, SplitWhitespace};
use thiserror::Error;

// A kind of loss book.
#[derive(Clone, Copy)]
pub enum BookKind {
    Lossless,
    Segments,
}

// The book of the links below a number that no part before it has.
#[derive(Clone, Copy)]
pub struct Part {
    pub below: u32,
    pub kind: BookKind,
}

// Which book serves which links: those of the parts, and another the links that are left.
#[derive(Clone, Copy)]
pub enum BookPlan {
    Whole(BookKind),
    Split(Part, BookKind),
    SplitTwice(Part, Part, BookKind),
}

#[derive(Clone, Copy)]
pub enum RuleKind {
    Equal,
    Running,
    Nearest,
}

// The parts of the derogations on a rule, from the top.
#[derive(Clone, Copy)]
pub enum Derogations {
    None,
    One(u32),
    Two(u32, u32),
}

// A rule with its numbers, under its derogations.
#[derive(Drop)]
pub struct RulePlan {
    pub derogations: Derogations,
    pub kind: RuleKind,
    pub numbers: Vec<u32>,
}

// A segment for a link in a direction.
#[derive(Clone, Copy)]
pub struct Segment {
    pub link: u32,
    pub direction: u32,
    pub upper: u32,
    pub slope: u32,
}

#[derive(Drop)]
pub enum Command {
    Region(Region),
    Corridor(Corridor),
    Link(Link),
    Point(Point),
    Dna(Dna),
    Check,
    Clear,
    Book(BookPlan),
    Segment(Segment),
    Flows(Vec<u32>),
    Rule(RulePlan),
    Share(i64),
    Read(Vec<u32>),
    Try(Result<(), Fault>),
}

// Why a line is no command.
#[derive(Clone, Copy, Debug, Error)]
pub enum Fault {
    #[error("unknown command")]
    UnknownCommand,
    #[error("wrong number of words")]
    WordCount,
    #[error("not a number, or one that does not fit")]
    BadNumber,
    #[error("out of memory")]
    Memory(#[from(alloc)] AllocError),
}

impl From<ParseIntError> for Fault {
    fn from(_e: ParseIntError) -> Fault {
        Fault::BadNumber
    }
}

impl FromStr for BookKind {
    type Err = Fault;

    fn from_str(word: &str) -> Result<BookKind, Fault> {
        match word {
            "lossless" => Ok(BookKind::Lossless),
            "segments" => Ok(BookKind::Segments),
            _ => Err(Fault::UnknownCommand),
        }
    }
}

impl FromStr for RuleKind {
    type Err = Fault;

    fn from_str(word: &str) -> Result<RuleKind, Fault> {
        match word {
            "equal" => Ok(RuleKind::Equal),
            "running" => Ok(RuleKind::Running),
            "nearest" => Ok(RuleKind::Nearest),
            _ => Err(Fault::UnknownCommand),
        }
    }
}

// A number in decimal, or in hexadecimal after 0x.
fn number(word: &str) -> Result<u32, Fault> {
    let read = match word.strip_prefix("0x") {
        Some(digits) => u32::from_str_radix(digits, 16),
        None => word.parse(),
    };
    Ok(read?)
}

fn numbers(heap: Global, words: &[&str]) -> Result<Vec<u32>, Fault> {
    let mut all = Vec::new(heap);
    for word in words {
        all.push(number(word)?)?;
    }
    Ok(all)
}

// The numbers of a command that takes N.
fn fields<const N: usize>(words: &[&str]) -> Result<[u32; N], Fault> {
    if words.len() != N {
        return Err(Fault::WordCount);
    }
    let mut fields = [0; N];
    for (field, word) in fields.iter_mut().zip(words) {
        *field = number(word)?;
    }
    Ok(fields)
}

// The words of a line, without its comment.
fn words(line: &str) -> SplitWhitespace<'_> {
    let text = line.split_once('#').map_or(line, |(before, _)| before);
    text.split_whitespace()
}

// The word that a line begins with, which is its command's name.
pub fn name(line: &str) -> &str {
    words(line).next().unwrap_or("")
}

// The command of a line; none where it is blanks and comment alone.
pub fn parse(heap: Global, line: &str) -> Result<Option<Command>, Fault> {
    let words: Vec<&str> = words(line).collect(heap)?;
    match words.as_slice() {
        [] => Ok(None),
        ["try", rest @ ..] => Ok(Some(Command::Try(tried(heap, rest)))),
        [name, rest @ ..] => Ok(Some(named(heap, name, rest)?)),
    }
}

// What is wrong with words that are tried.
fn tried(heap: Global, words: &[&str]) -> Result<(), Fault> {
    if let [name, rest @ ..] = words {
        named(heap, name, rest)?;
    }
    Ok(())
}

fn named(heap: Global, name: &str, words: &[&str]) -> Result<Command, Fault> {
    match name {
        "region" => read_region(words),
        "corridor" => read_corridor(words),
        "link" => read_link(words),
        "point" => read_point(words),
        "dna" => read_dna(words),
        "check" => alone(words, Command::Check),
        "clear" => alone(words, Command::Clear),
        "book" => Ok(Command::Book(read_book(words)?)),
        "segment" => read_segment(words),
        "flows" => Ok(Command::Flows(interval_words(heap, words)?)),
        "rule" => Ok(Command::Rule(read_rule(heap, words)?)),
        "share" => read_share(words),
        "read" => Ok(Command::Read(numbers(heap, words)?)),
        _ => Err(Fault::UnknownCommand),
    }
}

fn read_region(words: &[&str]) -> Result<Command, Fault> {
    let [code] = fields::<1>(words)?;
    Ok(Command::Region(Region { code }))
}

fn read_corridor(words: &[&str]) -> Result<Command, Fault> {
    let [region1, region2] = fields::<2>(words)?;
    Ok(Command::Corridor(Corridor { region1, region2 }))
}

fn read_link(words: &[&str]) -> Result<Command, Fault> {
    let [corridor, part1] = fields::<2>(words)?;
    Ok(Command::Link(Link { corridor, part1 }))
}

fn read_point(words: &[&str]) -> Result<Command, Fault> {
    let [region, dna, marginal, distribution] = fields::<4>(words)?;
    Ok(Command::Point(Point {
        region,
        dna,
        marginal,
        distribution,
    }))
}

fn read_dna(words: &[&str]) -> Result<Command, Fault> {
    let [region, downstream, boundary] = fields::<3>(words)?;
    Ok(Command::Dna(Dna {
        region,
        downstream,
        boundary,
    }))
}

fn read_segment(words: &[&str]) -> Result<Command, Fault> {
    let [link, direction, upper, slope] = fields::<4>(words)?;
    Ok(Command::Segment(Segment {
        link,
        direction,
        upper,
        slope,
    }))
}

// A command that takes no words.
fn alone(words: &[&str], command: Command) -> Result<Command, Fault> {
    if words.is_empty() {
        Ok(command)
    } else {
        Err(Fault::WordCount)
    }
}

fn read_share(words: &[&str]) -> Result<Command, Fault> {
    let [amount] = words else {
        return Err(Fault::WordCount);
    };
    Ok(Command::Share(amount.parse()?))
}

// `lossless`, `segments`, `split N KIND KIND`, or a split whose second book is a split.
fn read_book(words: &[&str]) -> Result<BookPlan, Fault> {
    match words {
        [last] => Ok(BookPlan::Whole(last.parse()?)),
        [split, below, kind, last] => {
            Ok(BookPlan::Split(read_part(split, below, kind)?, last.parse()?))
        }
        [split, low, first, again, high, second, last] => Ok(BookPlan::SplitTwice(
            read_part(split, low, first)?,
            read_part(again, high, second)?,
            last.parse()?,
        )),
        _ => Err(Fault::WordCount),
    }
}

// `split N KIND`
fn read_part(split: &str, below: &str, kind: &str) -> Result<Part, Fault> {
    if split != "split" {
        return Err(Fault::UnknownCommand);
    }
    Ok(Part {
        below: number(below)?,
        kind: kind.parse()?,
    })
}

// A kind with its numbers, after none, one or two `derogation P`.
fn read_rule(heap: Global, words: &[&str]) -> Result<RulePlan, Fault> {
    let (derogations, rest) = match words {
        ["derogation", top, "derogation", next, rest @ ..] => {
            (Derogations::Two(number(top)?, number(next)?), rest)
        }
        ["derogation", part, rest @ ..] => (Derogations::One(number(part)?), rest),
        rest => (Derogations::None, rest),
    };
    let [kind, rest @ ..] = rest else {
        return Err(Fault::WordCount);
    };
    Ok(RulePlan {
        derogations,
        kind: kind.parse()?,
        numbers: numbers(heap, rest)?,
    })
}
