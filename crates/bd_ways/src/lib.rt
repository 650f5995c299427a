//! The ways in which the engine's code goes about a step, as definitions: what follows from a change, worked out only where
//! something was touched, and what a table says of the spaces that it stands for. Nobody need believe them: `bd_laws`
//! proves the first to come to what `bd_space` says, and the second stand in contracts that end in its words.
#![tactic(auto)]
