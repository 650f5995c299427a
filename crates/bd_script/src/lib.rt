//! Scripts: what each seat does, line by line, read from text.
#![tactic(auto)]

mod hex;
mod numbers;
mod reasons;
mod requests;
mod script;
mod words;

pub use hex::hex_is_read;
pub use reasons::{Reason, explain};
pub use script::{Line, Script, ScriptError, Verb, read_script};
