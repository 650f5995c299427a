//! The versions of the format.

ghost use Rattle.std.specs.Prelude.{◌≡◌};
ghost use Rattle.bd_spelling.specs.Spelling.{has_spam};

/// The versions of the format.
#[derive(Clone, Copy, Debug, PartialEq, Eq)]
pub enum Version {
    /// `BNDJ0001`: 1 to 16 seats, of which none asks to be told of its flooding. It is read, and no longer written.
    One,
    /// `BNDJ0002`: 1 to 31 seats. It is read and written.
    Two,
    /// `BNDJ0003`: 32 to 65536 seats, and more entries than a word counts. It is read and written.
    Three,
}

impl Version {
    /// Whether a journal of this version can have the step by which a process asks for reports of its flooding.
    pub fn has_spam(self) -> bool
        ensures { result ≡ has_spam self }
    {
        match self {
            Version::One => false,
            Version::Two | Version::Three => true,
        }
    }
}
