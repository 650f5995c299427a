//! A driver for programs in C or Rust: what they link with. A program has handles, one of the driver and one of each
//! seat, and whoever has a seat's handle makes that seat's calls. What the calls answer stays with the seat until its
//! next call, so that a caller can fetch it in buffers of the size that it was told. Or a program has one handle of a live
//! engine, which keeps no history, and makes all seats' steps with it, one of the descriptors that are on their way beside that, and
//! one of rings, which say whose turn it is. What is spelled or read needs no handle.
#![tactic(auto)]

mod answers;
mod asking;
mod bridge_calls;
mod bridges;
mod certificates;
mod codec_calls;
mod driver_calls;
mod hand_over_calls;
mod handles;
mod held;
mod host;
mod hosting;
mod hosts;
mod judging;
mod keyed;
mod layout_calls;
mod layouts;
mod lending;
mod live;
mod live_calls;
mod live_commands;
mod live_entries;
mod live_looks;
mod live_polls;
mod live_reached;
mod lives;
mod loose;
mod numbers;
mod opening;
mod pages;
mod parcel_calls;
mod parts;
mod reader_calls;
mod readers;
mod requests;
mod ring_calls;
mod seat;
mod seat_calls;
mod sending_calls;
mod sendings;
mod space_calls;
mod space_looks;
mod space_told;
mod spelled;
mod status;
mod texts;
mod ticket_calls;
mod tickets;
mod waiting_calls;
mod waits;
mod walks;
mod wrapping_calls;
mod wrappings;
