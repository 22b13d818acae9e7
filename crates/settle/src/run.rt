// What each command does, and the lines that it prints.
use crate::desk::{Desk, piled};
use crate::report;
use crate::script::{BookPlan, Command, Fault, RulePlan, Segment, name, parse};
use anyhow::Context;
use grid::checked::Checked;
use grid::grid::Grid;
use interval::metered::Metered;
use interval::read::read;
use register::entry::{Entry, Point};
use register::register::Register;
use register::roll::Roll;
use std::io;
use std::iter::Zip;
use std::ops::RangeFrom;
use std::str::Lines;
use transfers::links::Links;
use units::refusal::Refusal;

// Why a command does not print what it did.
#[derive(Drop)]
enum Failure {
    Refused(Refusal),
    Output(io::Error),
}

impl From<Refusal> for Failure {
    fn from(refusal: Refusal) -> Failure {
        Failure::Refused(refusal)
    }
}

impl From<io::Error> for Failure {
    fn from(e: io::Error) -> Failure {
        Failure::Output(e)
    }
}

// The lines that are left, with their numbers.
pub type Numbered<'a> = Zip<RangeFrom<usize>, Lines<'a>>;

// Runs lines up to a `clear`, and answers whether there was one. A line that is no command ends the run.
pub fn lines(
    rt: &HostRuntime,
    register: &mut Register,
    lines: &mut Numbered,
) -> anyhow::Result<bool> {
    let mut desk = Desk::new();
    for (number, line) in lines {
        let Some(command) = parse(rt.alloc(), line).context(format_args!("line {number}"))? else {
            continue;
        };
        let clears = matches!(command, Command::Clear);
        execute(rt, register, &mut desk, line, command)?;
        if clears {
            return Ok(true);
        }
    }
    Ok(false)
}

// Runs a line's command, and prints its name with the refusal where it is refused.
fn execute(
    rt: &HostRuntime,
    register: &mut Register,
    desk: &mut Desk,
    line: &str,
    command: Command,
) -> io::Result<()> {
    match run(rt, register, desk, command) {
        Ok(()) => Ok(()),
        Err(Failure::Refused(refusal)) => println!(rt; "{} {refusal}", name(line)),
        Err(Failure::Output(e)) => Err(e),
    }
}

// Each arm is a call, and those with much memory of their own are kept out of line: a function pays for its memory each
// time that it is called, and most lines need little.
fn run(
    rt: &HostRuntime,
    register: &mut Register,
    desk: &mut Desk,
    command: Command,
) -> Result<(), Failure> {
    match command {
        Command::Region(e) => enter(rt, "region", &mut register.regions, e)?,
        Command::Corridor(e) => enter(rt, "corridor", &mut register.corridors, e)?,
        Command::Link(e) => enter(rt, "link", &mut register.links, e)?,
        Command::Point(e) => enter_point(rt, register, e)?,
        Command::Dna(e) => enter(rt, "dna", &mut register.dnas, e)?,
        Command::Check => check(rt, register)?,
        Command::Clear => rt.println("clear")?,
        Command::Book(plan) => choose_book(rt, desk, plan)?,
        Command::Segment(segment) => fill_segment(rt, desk, segment)?,
        Command::Flows(words) => flows(rt, register, desk, words.as_slice())?,
        Command::Rule(plan) => choose_rule(rt, desk, &plan)?,
        Command::Share(amount) => report::shares(rt, &desk.rule, amount)?,
        Command::Read(words) => read_words(rt, register, words.as_slice())?,
        Command::Try(tried) => show_tried(rt, tried)?,
    }
    Ok(())
}

#[inline(never)]
fn check(rt: &HostRuntime, register: &mut Register) -> Result<(), Failure> {
    Grid::copied(register).references()?;
    rt.println("check: all references hold")?;
    Ok(())
}

fn choose_book(rt: &HostRuntime, desk: &mut Desk, plan: BookPlan) -> io::Result<()> {
    desk.plan = plan;
    rt.println("book")
}

fn fill_segment(rt: &HostRuntime, desk: &mut Desk, s: Segment) -> Result<(), Failure> {
    desk.segments.fill(s.link, s.direction, s.upper, s.slope)?;
    rt.println("segment")?;
    Ok(())
}

#[inline(never)]
fn choose_rule(rt: &HostRuntime, desk: &mut Desk, plan: &RulePlan) -> Result<(), Failure> {
    desk.rule = piled(plan)?;
    rt.println("rule")?;
    Ok(())
}

// Enters an entry of any kind, and prints its number.
fn enter<E: Entry>(rt: &HostRuntime, kind: &str, roll: &mut Roll<E>, e: E) -> Result<(), Failure> {
    let number = roll.enter(e)?;
    println!(rt; "{kind} {number}")?;
    Ok(())
}

fn enter_point(rt: &HostRuntime, register: &mut Register, e: Point) -> Result<(), Failure> {
    let number = register.points.enter(e)?;
    println!(rt; "point {number} factor {}", e.factor())?;
    Ok(())
}

// Shows what the links carry.
#[inline(never)]
fn flows(
    rt: &HostRuntime,
    register: &mut Register,
    desk: &Desk,
    words: &[u32],
) -> Result<(), Failure> {
    let grid = Checked::copied(register)?;
    let (interval, _) = read(&grid.grid, words)?;
    let metered = Metered {
        grid: &grid,
        interval: &interval,
    };
    report::flows(
        rt,
        &Links {
            metered,
            book: &desk.book(),
        },
    )?;
    Ok(())
}

// Shows the interval that is read.
#[inline(never)]
fn read_words(rt: &HostRuntime, register: &mut Register, words: &[u32]) -> Result<(), Failure> {
    let grid = Grid::copied(register);
    let (metered, used) = read(&grid, words)?;
    report::interval(rt, &grid, &metered, used)?;
    Ok(())
}

fn show_tried(rt: &HostRuntime, tried: Result<(), Fault>) -> io::Result<()> {
    match tried {
        Ok(()) => rt.println("try: a command"),
        Err(fault) => println!(rt; "try: {fault}"),
    }
}
