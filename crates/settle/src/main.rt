#![tactic(auto)]

// Runs a script of calls from beginning to end, and prints what each did.
use register::entry::{Corridor, Dna, Link, Point, Region};
use register::register::Register;
use run::Numbered;
use std::io;
use std::process::ExitCode;

mod desk;
mod figures;
mod report;
mod run;
mod script;

// Runs the lines of a box, which begins empty. Answers whether a `clear` ended it.
fn run_box(rt: &HostRuntime, lines: &mut Numbered) -> anyhow::Result<bool> {
    let mut regions = [Region::default(); 8];
    let mut corridors = [Corridor::default(); 8];
    let mut links = [Link::default(); 8];
    let mut points = [Point::default(); 128];
    let mut dnas = [Dna::default(); 8];
    let mut register = Register::new(
        &mut regions,
        &mut corridors,
        &mut links,
        &mut points,
        &mut dnas,
    );
    run::lines(rt, &mut register, lines)
}

fn settle(rt: &HostRuntime) -> anyhow::Result<()> {
    let text = io::read_to_string(rt.alloc(), rt.stdin())?;
    let mut lines = (1..).zip(text.as_str().lines());
    // A box for each turn: the last is the one that no `clear` ends.
    for _ in 0..u64::MAX {
        if !run_box(rt, &mut lines)? {
            break;
        }
    }
    Ok(())
}

fn main(rt: HostRuntime) -> io::Result<ExitCode> {
    match settle(&rt) {
        Ok(()) => Ok(ExitCode::SUCCESS),
        Err(e) => {
            eprintln!(rt; "settle: {e:#}")?;
            Ok(ExitCode::FAILURE)
        }
    }
}
