#![tactic(auto)]

mod form;
pub mod interval;
mod kind;
pub mod law;
pub mod metered;
mod part;
pub mod read;
mod readings;
mod word;
