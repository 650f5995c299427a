//! Smaller worked examples of steps.

ghost use Rattle.bd_examples.specs.Small.{reply_before_refusal, leaves_the_loop, no_such_handle, manager_in_a_reply, asking_for_the_manager, handshakes, not_handed_out, released_in_the_end, held_by_handshakes, first_fit, turns_by_object, death_asked, manager_ends, small_reads, refusals, own_manager, faulty_reply, falling_offsets};

/// A thread makes no further two-way call before it has read the reply to its last one (X6).
pub fn reply_before_refusal_holds()
    ensures { reply_before_refusal }
{}

/// A thread that has left the loop doesn't read its process's todo list (F12).
pub fn leaves_the_loop_holds()
    ensures { leaves_the_loop }
{}

/// A handle that its sender has no name for isn't sent (X12).
pub fn no_such_handle_holds()
    ensures { no_such_handle }
{}

/// The manager's object that is sent in a reply gets the handle 0 at its receiver.
pub fn manager_in_a_reply_holds()
    ensures { manager_in_a_reply }
{}

/// References on the manager's object can be asked for through handle 0 without a name, by every process but the manager's own (N4). Weak
/// and strong ones are counted apart.
pub fn asking_for_the_manager_holds()
    ensures { asking_for_the_manager }
{}

/// An owner acknowledges each reference that it was told of once (N8), and by pointer and cookie (N7).
pub fn handshakes_holds()
    ensures { handshakes }
{}

/// A buffer that its receiver hasn't read yet can't be freed (N6).
pub fn not_handed_out_holds()
    ensures { not_handed_out }
{}

/// An owner that has acknowledged is told to release, strongly and then weakly, when the last buffer that carries its object is freed. It
/// reads that in the loop only.
pub fn released_in_the_end_holds()
    ensures { released_in_the_end }
{}

/// While the owner hasn't acknowledged, its object is held for it, and it isn't told to release although the last buffer is freed.
pub fn held_by_handshakes_holds()
    ensures { held_by_handshakes }
{}

/// A buffer gets the least place that it fits into: a freed place of 8 bytes isn't used for 16, and is for the next 8.
pub fn first_fit_holds()
    ensures { first_fit }
{}

/// One-way calls wait for each other only on the same object: a call on a second object of the process is read while one on the first isn't
/// freed.
pub fn turns_by_object_holds()
    ensures { turns_by_object }
{}

/// A name has at most one death notification (N9), which is cleared by its own cookie (N10) and acknowledged only once it was told (N11).
pub fn death_asked_holds()
    ensures { death_asked }
{}

/// When the manager's process ends, the caller of an unread call is told so, there is no manager (X2), and another process may become it.
pub fn manager_ends_holds()
    ensures { manager_ends }
{}

/// A read of fewer than 72 bytes is refused (F11). One of 72 takes a notice whole, and nothing after it.
pub fn small_reads_holds()
    ensures { small_reads }
{}

/// Each refusal of becoming the manager, of reading, of opening and of attaching, once (F10, F4, F7, F8, F6, F9, F5).
pub fn refusals_holds()
    ensures { refusals }
{}

/// The manager's process can't call its own object through handle 0 (X3), and a thread that serves no call can't reply (X15).
pub fn own_manager_holds()
    ensures { own_manager }
{}

/// A reply with a bad object (X9) is a completion to its writer, and a failed call to the caller.
pub fn faulty_reply_holds()
    ensures { faulty_reply }
{}

/// Offsets that go down are refused (X9). A thread that waits for a reply makes no second call (X5).
pub fn falling_offsets_holds()
    ensures { falling_offsets }
{}
