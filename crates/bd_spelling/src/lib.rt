//! An entry of a history as bytes: spelled and read, and many of them kept so.
#![tactic(auto)]

mod chunk;
mod codes;
mod fault;
mod fields;
mod laid;
mod log;
mod reading;
mod record;
mod sending;
mod versions;
mod writing;

pub use chunk::{Chunk, ChunkReader};
pub use codes::{cause_number, fault_number, note_number};
pub use fault::{ReadError, Refused, WriteError};
pub use fields::{long_at, word_at};
pub use laid::lay_entry;
pub use log::{Log, LogReader};
pub use reading::entry_at;
pub use record::{Entries, Record};
pub use sending::{send, send_all};
pub use versions::Version;
pub use writing::{answer_len, command_of, step_len, write_entry};
