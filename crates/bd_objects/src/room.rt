//! Room in the table.

ghost use Rattle.std.specs.Prelude.{◌≡◌, true};
ghost use Rattle.bd_objects.specs.Within.{IsWithin};

/// For so many more of each. The names are those of one process.
#[derive(Clone, Copy, Debug, PartialEq, Eq)]
pub struct Room {
    pub objects: usize,
    pub references: usize,
    pub names: usize,
    pub process: u64,
    pub deaths: usize,
}

impl Room {
    /// Whether it is for at most so many of each, but for names.
    #[inline(always)]
    pub(crate) fn is_within(self, each: usize) -> bool
        ensures { result ≡ true → IsWithin self each }
    {
        self.objects <= each && self.references <= each && self.deaths <= each
    }
}
