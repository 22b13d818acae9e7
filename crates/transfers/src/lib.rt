#![tactic(auto)]

pub mod links;
pub mod sign;
mod sums;
pub mod transfer;
mod worth;
