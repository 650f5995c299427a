//! What a receiver's side writes into a parcel.

/// Bytes of a parcel that nobody knows before it has its place in a window.
#[derive(Clone, Copy, Debug, PartialEq, Eq)]
pub enum Fixup {
    /// Eight bytes that hold the address of another byte of the parcel.
    Pointer { at: usize, to: usize },
    /// Eight bytes that hold the number of a descriptor: an FD object's.
    Descriptor { at: usize },
    /// Numbers of four bytes each, one behind the other: an FDA object's.
    Descriptors { at: usize, count: usize },
}
