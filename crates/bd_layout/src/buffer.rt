//! A buffer that may still be written to.

/// The buffer of a PTR object, while pointers and descriptors may still be put into it.
#[derive(Clone, Copy, Debug, PartialEq, Eq)]
pub struct OpenBuffer {
    /// Which of the parcel's objects it belongs to, from 0.
    pub index: usize,
    /// Where its bytes begin among those of the parcel.
    pub place: usize,
    /// How many bytes it has.
    pub length: usize,
    /// The first of them behind all that was put there.
    pub least: usize,
}
