#![tactic(auto)]

pub mod book;
mod curve;
pub mod direction;
pub mod lossless;
pub mod segments;
pub mod split;
