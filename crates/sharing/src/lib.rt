#![tactic(auto)]

mod amount;
pub mod derogation;
pub mod equal;
pub mod laws;
pub mod method;
pub mod nearest;
pub mod rule;
pub mod running;
pub mod weighted;
mod weights;
