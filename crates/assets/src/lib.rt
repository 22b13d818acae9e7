#![tactic(auto)]

mod asset;
pub mod assets;
mod balance;
pub mod estimate;
mod feed;
mod sides;
