//! How a request that reads begins and ends.

ghost use Rattle.std.specs.Prelude.{◌≡◌, ◌==◌, ◌&&◌, ◌||◌, not};
ghost use Rattle.bd_waiting.specs.Requests.{begins_by, ends_by, read_ends_by, cancels_by};

use bd_reader::Reader;

/// What a read does first.
#[derive(Clone, Copy, Debug, PartialEq, Eq)]
pub enum Begin {
    /// It waits.
    Waits,
    /// It reads from the engine if that has something for it, and else waits.
    Looks,
    /// It comes back with what there is, be it nothing.
    ComesBack,
    /// It reads from the engine, which has something for it.
    Fetches,
}

/// What a request has come to.
#[repr(C)]
#[derive(Clone, Copy, Debug, PartialEq, Eq)]
pub struct Ending {
    /// It goes on with another turn.
    pub is_put_off: bool,
    /// It has begun a read ..
    pub reads: bool,
    /// .. that isn't answered yet.
    pub is_reading: bool,
    /// Its read couldn't be made, or the bridge couldn't be told of it.
    pub has_failed: bool,
    /// It needn't have waited.
    pub is_at_once: bool,
    /// It may wait.
    pub may_wait: bool,
    /// It is to come back at once.
    pub is_to_return: bool,
    /// It has something to be answered with.
    pub is_there: bool,
}

/// How a request ends.
#[derive(Clone, Copy, Debug, PartialEq, Eq)]
pub enum End {
    /// It isn't answered now.
    Rests,
    /// It goes on with another turn.
    GoesOn,
    /// It is answered with what its commands have come to.
    Tells,
    /// It is answered with why its read failed.
    Fails,
    /// It is answered with what there is.
    Answers,
    /// It is answered with EAGAIN.
    WouldBlock,
    /// It waits from now on; where the bridge can't be told of that, it is answered with ENOMEM.
    Waits,
}

/// Why a thread wants its answer now.
#[derive(Clone, Copy, Debug, PartialEq, Eq)]
pub enum Why {
    Nothing,
    /// A signal has come.
    IsInterrupted,
    /// Its read is to come back.
    IsToReturn,
}

/// What is done about a request that waits.
#[derive(Clone, Copy, Debug, PartialEq, Eq)]
pub enum Cancel {
    Rests,
    /// Its read comes back with what there is.
    ComesBack,
    /// Its read is answered with EINTR.
    Interrupts,
    /// It isn't begun, and is answered with EINTR.
    Refuses,
}

/// How a read begins. Of what a thread has brought about itself it is known that it is there; who waits for a reply is the bridge's. `size`
/// is how many bytes it has read and wasn't told, `is_there` whether its read has something.
#[inline(always)]
pub fn begins(
    reader: &Reader,
    size: u32,
    is_there: bool,
    may_wait: bool,
    is_to_return: bool,
) -> Begin
    ensures { result ≡ begins_by size is_there may_wait is_to_return reader.now }
{
    if reader.is_prompt != 0 && reader.untold != 0 && size == 0 {
        return Begin::Fetches;
    }
    if !may_wait || is_there || is_to_return {
        return Begin::ComesBack;
    }
    if reader.calling == 0 {
        Begin::Looks
    } else {
        Begin::Waits
    }
}

impl Ending {
    // One that needn't have waited is answered with what there is. If that is nothing, it waits all the same, if it may.
    #[inline(always)]
    fn of_read(&self) -> End
        ensures { result ≡ read_ends_by self.now }
    {
        if self.has_failed {
            return End::Fails;
        }
        if !self.is_at_once {
            return End::Rests;
        }
        if self.is_there || self.is_to_return {
            return End::Answers;
        }
        if self.may_wait {
            End::Waits
        } else {
            End::WouldBlock
        }
    }

    /// How it ends.
    #[inline(always)]
    pub fn end(&self) -> End
        ensures { result ≡ ends_by self.now }
    {
        if self.is_put_off {
            return End::GoesOn;
        }
        if !self.reads {
            return End::Tells;
        }
        if !self.is_reading {
            return End::Rests;
        }
        self.of_read()
    }
}

/// What is done about a request that waits, in a read or to be begun.
#[inline(always)]
pub fn cancels(is_reading: bool, why: Why) -> Cancel
    ensures { result ≡ cancels_by is_reading why }
{
    match why {
        Why::Nothing => Cancel::Rests,
        Why::IsInterrupted => {
            if is_reading {
                Cancel::Interrupts
            } else {
                Cancel::Refuses
            }
        }
        Why::IsToReturn => {
            if is_reading {
                Cancel::ComesBack
            } else {
                Cancel::Rests
            }
        }
    }
}
