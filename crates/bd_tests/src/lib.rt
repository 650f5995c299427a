//! Tests that need public calls only. They stand here so that the crates that they test are proved once. The steps that
//! they share are no test: edits are tried by a check that reads no test.
#![tactic(auto)]

#[cfg(test)]
mod audit;
#[cfg(test)]
mod codec;
#[cfg(test)]
mod hand_over;
#[cfg(test)]
mod live;
#[cfg(test)]
mod memory;
#[cfg(test)]
mod parcel;
#[cfg(test)]
mod player;
#[cfg(test)]
mod same;
#[cfg(test)]
mod script;
#[cfg(test)]
mod seats;
pub mod steps;
