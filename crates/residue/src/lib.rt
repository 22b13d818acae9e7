#![tactic(auto)]

pub mod credit;
