//! Worked examples at the edges of the rules.

ghost use Rattle.bd_examples.specs.Edges.{least_free_handle, number_0_as_a_name_and_as_the_manager, strong_handle_of_a_weak_name, acquire_through_a_weak_name, object_flags, target_held, manager_with_a_known_ptr_0, dead_owner_of_a_weak_name, waiting_with_a_call_to_read, unread_verdict, reply_outside_the_area_to_a_caller_that_ended, budget_of_one_way_calls_alone, notice_moves_with_binder, notice_stays_with_weak_binder, death_before_notices, notification_gone_with_its_name, clearing_a_done_notification, least_told_notification, pid_of_a_caller_that_ended, one_list_a_read, thread_ends_with_a_call_unread, thread_ends_with_a_reply_unread, handshakes_end_with_the_process, order_of_the_refusals_of_opening};

/// A new handle gets the least number that is free: handle 1 is free again while 2 is in use, and so the next is 1 and not 3.
pub fn least_free_handle_holds()
    ensures { least_free_handle }
{}

/// To a process that still names the former manager's object by 0, asking for references on 0 and calling 0 mean the new manager, and
/// releasing 0 means the old one.
pub fn number_0_as_a_name_and_as_the_manager_holds()
    ensures { number_0_as_a_name_and_as_the_manager }
{}

/// A process that names an object only weakly may send it on as a weak handle, but not as a strong one (X12).
pub fn strong_handle_of_a_weak_name_holds()
    ensures { strong_handle_of_a_weak_name }
{}

/// A weak name is no target for a call (X1), until the process acquires it. It can do so while anybody holds the object strongly, here the
/// owner that hasn't acknowledged yet.
pub fn acquire_through_a_weak_name_holds()
    ensures { acquire_through_a_weak_name }
{}

/// The flags of an object in a parcel reach the receiver as they were sent.
pub fn object_flags_holds()
    ensures { object_flags }
{}

/// The buffer of a call keeps the called object until it is freed, though the caller has released it before: the owner is told to release
/// only then.
pub fn target_held_holds()
    ensures { target_held }
{}

/// A process can't become the manager while it has an object with pointer 0 (F10), even one without references that it has yet to be told
/// to release.
pub fn manager_with_a_known_ptr_0_holds()
    ensures { manager_with_a_known_ptr_0 }
{}

/// A call through a weak name of a dead process's object is refused because the name is weak (X1), and not because the owner is dead (X4).
pub fn dead_owner_of_a_weak_name_holds()
    ensures { dead_owner_of_a_weak_name }
{}

/// A thread that waits for a reply and has a call to read is refused a two-way call because it waits (X5), and not because of what is
/// unread (X6).
pub fn waiting_with_a_call_to_read_holds()
    ensures { waiting_with_a_call_to_read }
{}

/// A thread that hasn't read that its last call failed makes no two-way call (X6). The read of 72 bytes before takes the completion alone.
pub fn unread_verdict_holds()
    ensures { unread_verdict }
{}

/// A reply whose caller has ended, and whose parcel lies outside the area, is refused because of the caller (X16), and not because of the
/// parcel (X7).
pub fn reply_outside_the_area_to_a_caller_that_ended_holds()
    ensures { reply_outside_the_area_to_a_caller_that_ended }
{}

/// The budget of one-way calls counts their own buffers: a two-way call that takes half of the window leaves it whole.
pub fn budget_of_one_way_calls_alone_holds()
    ensures { budget_of_one_way_calls_alone }
{}

/// When a second thread of the owner sends the object strongly, the notice that the owner is owed moves to that thread's todo list.
pub fn notice_moves_with_binder_holds()
    ensures { notice_moves_with_binder }
{}

/// When a second thread of the owner sends the object weakly, the notice that the owner is owed stays on the first thread's todo list.
pub fn notice_stays_with_weak_binder_holds()
    ensures { notice_stays_with_weak_binder }
{}

/// Where one step puts a death and a notice on the same todo list the death is read first, and nothing else in the same read.
pub fn death_before_notices_holds()
    ensures { death_before_notices }
{}

/// Freeing the only buffer that carries an object ends the receiver's name for it, and with the name the death notification: the owner's
/// end isn't told.
pub fn notification_gone_with_its_name_holds()
    ensures { notification_gone_with_its_name }
{}

/// Clearing a death notification that was told and acknowledged is confirmed at once. One asked for on an object whose owner has ended is
/// there to read at once.
pub fn clearing_a_done_notification_holds()
    ensures { clearing_a_done_notification }
{}

/// Of two told death notifications with one cookie an acknowledgement is of the older. Here only the younger was cleared, so only the
/// second acknowledgement confirms a clearing.
pub fn least_told_notification_holds()
    ensures { least_told_notification }
{}

/// A call whose calling thread has ended is read with pid 0, though the caller's process lives.
pub fn pid_of_a_caller_that_ended_holds()
    ensures { pid_of_a_caller_that_ended }
{}

/// A thread with an open two-way call doesn't read its process's todo list, and no read takes from the thread's list and the process's.
pub fn one_list_a_read_holds()
    ensures { one_list_a_read }
{}

/// When a thread ends, the call on its todo list fails for its caller, the place of that call's buffer is free again, and the notice on the
/// list goes to the process's.
pub fn thread_ends_with_a_call_unread_holds()
    ensures { thread_ends_with_a_call_unread }
{}

/// The buffer of a reply that its thread hasn't read ends with the thread: the next buffer in that window gets its place.
pub fn thread_ends_with_a_reply_unread_holds()
    ensures { thread_ends_with_a_reply_unread }
{}

/// The references that an owner has yet to acknowledge end with it: they no longer let anybody acquire its object (N3).
pub fn handshakes_end_with_the_process_holds()
    ensures { handshakes_end_with_the_process }
{}

/// Opening is refused for the pid's range before the window's size, then for the seat's own process before a taken pid (F7, F8, F5, F6).
pub fn order_of_the_refusals_of_opening_holds()
    ensures { order_of_the_refusals_of_opening }
{}
