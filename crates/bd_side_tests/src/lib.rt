//! Tests of the crates beside the engine. They need public calls only, and stand here so that those crates are proved once.
#![tactic(auto)]

#[cfg(test)]
mod bridge;
#[cfg(test)]
mod layout;
#[cfg(test)]
mod reader;
#[cfg(test)]
mod ring;
#[cfg(test)]
mod same;
#[cfg(test)]
mod sendings;
#[cfg(test)]
mod tickets;
#[cfg(test)]
mod waiting;
#[cfg(test)]
mod wrapping;
