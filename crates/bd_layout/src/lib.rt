//! How a parcel with buffers and descriptors is laid out for its receiver.
#![tactic(auto)]

mod buffer;
mod fixup;
mod landing;
mod laws;
mod layout;
mod walk;

pub use buffer::OpenBuffer;
pub use fixup::Fixup;
pub use landing::put_fixup;
pub use laws::{
    layouts_carry_what_was_sent, layouts_have_a_place_for_each_descriptor, layouts_land_whole,
    linux_takes_the_same,
};
pub use layout::Layout;
pub use walk::lay_out;
