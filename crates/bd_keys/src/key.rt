//! By what a value is found.

ghost use Rattle.std.specs.Prelude.{◌≡◌, ◌+◌, ◌%◌, ◌^◌};
ghost use Rattle.bd_keys.specs.Keys.{same_word, spread};

/// A key: a word (a pointer, a cookie or a pid) and the process in which it was chosen, 0 where a table holds the words of
/// one process, or of none.
#[derive(Clone, Copy, PartialEq, Eq)]
pub struct WordKey {
    pub process: u64,
    pub word: u64,
}

impl WordKey {
    /// Whether it is this key. Words are compared first: most keys have one process.
    #[inline(always)]
    pub(crate) fn is(self, k: WordKey) -> bool
        ensures { result ≡ same_word self k }
    {
        self.word == k.word && self.process == k.process
    }

    /// The lower half of its number.
    #[inline(always)]
    pub(crate) fn low(self) -> u64
        ensures { result ≡ (self.word + self.process) % 2 ^ 64 }
    {
        self.word.wrapping_add(self.process)
    }

    /// A number of 128 bits, another for each key. Its low bits tell the words of one process apart as well as the
    /// processes with one word.
    pub(crate) fn spread(self) -> u128
        ensures { result ≡ spread self }
    {
        u128::from(self.low()) + u128::from(self.process) * 0x1_0000_0000_0000_0000
    }
}
