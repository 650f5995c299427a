//! Worked examples of rules in which a slip went unseen by the examples before.

ghost use Rattle.bd_examples.specs.Rules.{own_object_in_the_own_window, references_of_others, references_asked_by_a_process_that_ended, notices_no_longer_wanted, notifications_of_others, death_item_gone_with_its_name, limits_of_opening, requests_without_a_process, room_for_one_return_more, process_without_threads, seat_that_comes_back, parcels_of_other_lengths, ready_seats};

/// A process that is sent its own object gets no name for it. So its number 1 is free, and goes to the next object that another process
/// sends.
pub fn own_object_in_the_own_window_holds()
    ensures { own_object_in_the_own_window }
{}

/// A process's names, and their strength, rest on what it asked for itself and on the buffers in its own window. What others asked for, or
/// it asked of another object, it can't release (N2).
pub fn references_of_others_holds()
    ensures { references_of_others }
{}

/// The references that a process asked for, weak and strong, end with it, and the owner is told to release.
pub fn references_asked_by_a_process_that_ended_holds()
    ensures { references_asked_by_a_process_that_ended }
{}

/// A notice is dropped with its object, and when what the owner was told is right again: then there is nothing to read (F12).
pub fn notices_no_longer_wanted_holds()
    ensures { notices_no_longer_wanted }
{}

/// The end of a process is told only to those that asked for news of its objects, and each notification is acknowledged once, by the
/// process that was told (N11).
pub fn notifications_of_others_holds()
    ensures { notifications_of_others }
{}

/// A death that is queued when the name it was asked through goes is not told, and can't be acknowledged (N11).
pub fn death_item_gone_with_its_name_holds()
    ensures { death_item_gone_with_its_name }
{}

/// The greatest pid and the greatest window are accepted, and one more of either is refused. A window is a whole number of pages, at least
/// one (F7, F8).
pub fn limits_of_opening_holds()
    ensures { limits_of_opening }
{}

/// Each request of a seat without a process is refused for that reason (F4), whatever other reasons there are.
pub fn requests_without_a_process_holds()
    ensures { requests_without_a_process }
{}

/// A read goes on while 68 bytes of its limit are left: of several completions a limit of 75 bytes takes one, and one of 76 takes two.
pub fn room_for_one_return_more_holds()
    ensures { room_for_one_return_more }
{}

/// A process whose last thread has ended lives on: its pid is taken (F6), its object can be called, and a thread that attaches to it later
/// reads what came.
pub fn process_without_threads_holds()
    ensures { process_without_threads }
{}

/// A thread that attaches at a seat takes nothing over from the thread that ended there: no reply, no call to serve, and no waiting.
pub fn seat_that_comes_back_holds()
    ensures { seat_that_comes_back }
{}

/// A step whose parcel is missing, or has other lengths than its command says, is refused (X7). A parcel beside a command that has none
/// makes no difference.
pub fn parcels_of_other_lengths_holds()
    ensures { parcels_of_other_lengths }
{}

/// A seat is ready while its thread's list has something to read, or its process's list has and the thread may read that, being in the loop
/// and in no open two-way call.
pub fn ready_seats_holds()
    ensures { ready_seats }
{}
