#![tactic(auto)]

pub mod checked;
pub mod entered;
pub mod grid;
