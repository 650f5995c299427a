//! What C calls to know what a thread that reads is told, and when.
ghost use Rattle.std.specs.Prelude.{◌≡◌, ◌≤◌, ◌==◌, not, length, if◌then◌else◌};
ghost use Rattle.bd_reader.specs.{Readers.{sent, delivered}, Returns.{returns_in, up_to_call, read_all, call_at, fitting, told_all, size_of_all, has_call, is_all_told}, Facts.{facts_of}};
ghost use Rattle.bd_c.specs.Readers.{kind_given as kind_of, outcome_given as outcome_of};

use crate::readers::{kind_given, outcome_given};
use bd_reader::{Facts, Pending, Reader, Told};

/// The thread has sent something: 0 a call, 1 a one-way call, else a reply. `stop` and `number` are those of its answer.
#[unsafe(no_mangle)]
pub extern "C" fn hullpippin_reader_sent(reader: &mut Reader, kind: u32, stop: u32, number: u32)
    ensures { reader.new ≡ sent (kind_of kind) (outcome_of stop number) reader.old }
{
    reader.sent(kind_given(kind), outcome_given(stop, number));
}

/// The thread has read these returns, of which a call or a reply is the last. Answers where that begins, or else where they end.
#[unsafe(no_mangle)]
pub extern "C" fn hullpippin_reader_read(reader: &mut Reader, returns: &[u8]) -> usize
    ensures read { reader.new ≡ read_all (up_to_call (returns_in returns.now)) reader.old }
    ensures call { result ≡ call_at (returns_in returns.now) }
{
    reader.read_all(returns)
}

/// The thread is told so many of these returns as a read with so much room has room for.
#[unsafe(no_mangle)]
pub extern "C" fn hullpippin_reader_told(
    reader: &mut Reader,
    returns: &[u8],
    room: u32,
    told: &mut Told,
)
    ensures told { reader.new ≡ told_all (fitting room (returns_in returns.now)) reader.old }
    ensures size { told.new.size ≡ size_of_all (fitting room (returns_in returns.now)) }
    ensures within { told.new.size ≤ length returns.now }
    ensures room { told.new.size ≤ room }
    ensures call { told.new.has_call ≡ has_call (fitting room (returns_in returns.now)) }
    ensures all { told.new.is_all ≡ is_all_told (fitting room (returns_in returns.now)) reader.new }
{
    *told = reader.tell(returns, room);
}

/// A read of the thread is answered. `is_left`, not 0: it has read more than that; `is_ready`, not 0: the engine has more for it.
#[unsafe(no_mangle)]
pub extern "C" fn hullpippin_reader_delivered(reader: &mut Reader, is_left: u32, is_ready: u32)
    ensures { reader.new ≡ delivered (not (is_left == 0)) (not (is_ready == 0)) reader.old }
{
    reader.delivered(is_left != 0, is_ready != 0);
}

/// Tells what is so of a thread that reads.
#[unsafe(no_mangle)]
pub extern "C" fn hullpippin_reader_facts(reader: &Reader, pending: &Pending, facts: &mut Facts)
    ensures { facts.new ≡ facts_of pending.now reader.now }
{
    *facts = reader.facts(pending);
}

/// Whether the thread's read has something to be answered with.
#[unsafe(no_mangle)]
pub extern "C" fn hullpippin_reader_is_there(reader: &Reader, pending: &Pending) -> bool
    ensures { result ≡ (facts_of pending.now reader.now).is_there }
{
    reader.is_there(pending)
}

/// Whether that is all of its own that is told together.
#[unsafe(no_mangle)]
pub extern "C" fn hullpippin_reader_is_whole(reader: &Reader, pending: &Pending) -> bool
    ensures { result ≡ (facts_of pending.now reader.now).is_whole }
{
    reader.is_whole(pending)
}

/// With which limit the engine reads for the thread, or 0: its read has no room for a return.
#[unsafe(no_mangle)]
pub extern "C" fn hullpippin_reader_limit(reader: &Reader, pending: &Pending) -> u32
    ensures { result ≡ (if (facts_of pending.now reader.now).has_room then (facts_of pending.now reader.now).limit else 0) }
{
    reader.limit(pending)
}
