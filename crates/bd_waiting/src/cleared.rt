//! Who is told that a death notification was taken back, and when.

ghost use Rattle.std.specs.Prelude.{◌≡◌};
ghost use Rattle.bd_waiting.specs.Cleared.{is_next_by, is_there_by, clears_by};

use bd_reader::Facts;

/// A notification that a process has taken back, and what else its thread has to read.
#[repr(C)]
#[derive(Clone, Copy)]
pub struct Cleared {
    /// The step that took it back.
    pub place: u64,
    /// The step of the oldest that is on the process's list ..
    pub oldest: u64,
    /// .. if anything is.
    pub has_oldest: bool,
    /// The thread has something of its own to read.
    pub has_own: bool,
}

/// Whether a thread that takes a notification back is told of that at once.
#[derive(Clone, Copy, Debug, PartialEq, Eq)]
pub enum Clearing {
    /// It is told by this, or where much is unread.
    IsTold,
    /// Nothing on its list tells it.
    IsNotTold,
    /// The next on its list is to be looked at.
    LooksOn,
}

// So many items of a list are looked at.
const MOST: usize = 16;

impl Cleared {
    /// Whether the thread is told of it next. Who reads something of its own gets nothing of its process, as in the kernel. What was taken back
    /// stands on the list of its process among all else, in the order of the steps.
    #[inline(always)]
    pub fn is_next(&self, facts: &Facts) -> bool
        ensures { result ≡ is_next_by facts.now self.now }
    {
        facts.is_idle
            && !facts.is_left
            && !self.has_own
            && (!self.has_oldest || self.oldest > self.place)
    }

    /// Whether the thread's read has something to be answered with, be it this.
    #[inline(always)]
    pub fn is_there(&self, facts: &Facts) -> bool
        ensures { result ≡ is_there_by facts.now self.now }
    {
        facts.is_there || self.is_next(facts)
    }
}

/// Whether a thread that takes a notification back is told of that at once, and not with a reply: by the item of an index on its list, if
/// there is one. Where much is unread it is taken to be so.
#[inline(always)]
pub fn clears(is_item: bool, is_cleared: bool, index: usize) -> Clearing
    ensures { result ≡ clears_by is_item is_cleared index }
{
    if index >= MOST {
        return Clearing::IsTold;
    }
    if !is_item {
        return Clearing::IsNotTold;
    }
    if is_cleared {
        Clearing::IsTold
    } else {
        Clearing::LooksOn
    }
}
