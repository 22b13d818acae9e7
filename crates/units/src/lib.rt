#![tactic(auto)]

pub mod amount;
pub mod fixed_list;
pub mod floor;
pub mod laws;
pub mod refusal;
