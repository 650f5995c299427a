//! Tests of the player: certificates, journals, writers that fail, threads, and a few worked examples. All of these are
//! played by `tools/examples`, and what is large by `tools/program`.

mod certificates;
mod flags;
mod handing;
mod journals;
mod playing;
mod threads;
mod worked;
mod writers;
