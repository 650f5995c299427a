//! Worked examples that pin one definition each.

ghost use Rattle.bd_examples.specs.Definitions.{one_way_bit_of_a_reply, cleared_notifications_outlive_the_name, target_of_a_window_that_ended, notices_made_anew_when_a_thread_ends, weak_binder_with_another_cookie, objects_inside_one_another, unsupported_objects_cut_short, window_of_a_process_that_ended, no_buffer_is_left, target_is_gone};

/// The one-way flag has no effect in a reply, and is handed on. A reply past half of the window is accepted, and the one-way call after it
/// finds its whole budget.
pub fn one_way_bit_of_a_reply_holds()
    ensures { one_way_bit_of_a_reply }
{}

/// Death notifications that were cleared outlive the receiver's name for the object: one that is still queued is told, and each clearing is
/// confirmed when it is acknowledged.
pub fn cleared_notifications_outlive_the_name_holds()
    ensures { cleared_notifications_outlive_the_name }
{}

/// The buffer of an unread call keeps the called object strong, until its owner ends: with the owner's window goes the buffer, and with the
/// buffer that reference.
pub fn target_of_a_window_that_ended_holds()
    ensures answers { target_of_a_window_that_ended }
    ensures gone { target_is_gone }
{}

/// When a thread ends, the notices on its todo list that are still wanted move to its process's list. One isn't wanted any more when its
/// object went with an unread reply of that thread.
pub fn notices_made_anew_when_a_thread_ends_holds()
    ensures { notices_made_anew_when_a_thread_ends }
{}

/// An object sent weakly is known by its pointer, as one sent strongly is. Another cookie for that pointer is refused (X11), also within
/// one parcel.
pub fn weak_binder_with_another_cookie_holds()
    ensures { weak_binder_with_another_cookie }
{}

/// Two objects of a parcel that overlap are refused (X9), in either order, though each may stand alone. Bytes that no offset points at
/// cross unchanged, even if they look like an object.
pub fn objects_inside_one_another_holds()
    ensures { objects_inside_one_another }
{}

/// A file descriptor, an array of them or a pointer object that isn't whole, or is misplaced, is a bad object (X9). Only a whole one in its
/// place is unsupported (X10).
pub fn unsupported_objects_cut_short_holds()
    ensures { unsupported_objects_cut_short }
{}

/// A process's buffers end with it, those handed out and those that wait for their turn. What they carried is released, and who opens with
/// the same pid finds an empty window.
pub fn window_of_a_process_that_ended_holds()
    ensures answers { window_of_a_process_that_ended }
    ensures emptied { no_buffer_is_left }
{}
