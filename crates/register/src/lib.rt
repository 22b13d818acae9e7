#![tactic(auto)]

pub mod entry;
pub mod register;
pub mod roll;
