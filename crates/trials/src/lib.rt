#![tactic(auto)]

// Examples of what the crates do, as tests. A crate with tests is proved twice, so they stand in a crate of their own.

#[cfg(test)]
mod of_interval;
#[cfg(test)]
mod of_losses;
#[cfg(test)]
mod of_register;
#[cfg(test)]
mod of_sharing;
#[cfg(test)]
mod of_units;
#[cfg(test)]
mod told;
