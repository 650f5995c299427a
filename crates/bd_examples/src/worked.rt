//! Worked examples of steps, as theorems that the check computes.

ghost use Rattle.bd_examples.specs.Worked.{one_way_call, call_and_reply, object_sent, name_lives_as_long_as_a_buffer, object_sent_twice, object_comes_home, other_cookie, half_of_the_window, no_room, a_buffer_carries, weak_object, nested_call, dead_server, one_way_turns, death_told};

/// A one-way call of two bytes to the manager, byte for byte: the caller reads that it was accepted, and the manager reads the call, with
/// pid 0.
pub fn one_way_call_holds()
    ensures { one_way_call }
{}

/// A two-way call and its reply: the call tells the caller's pid, the reply has pid 0, and both sides read a completion.
pub fn call_and_reply_holds()
    ensures { call_and_reply }
{}

/// An object that is sent for the first time: its owner is told of a weak and of a strong reference, and the receiver gets the handle 1.
pub fn object_sent_holds()
    ensures { object_sent }
{}

/// An object sent twice has one handle, for as long as one of the two buffers lives. When both are freed the next object gets the handle
/// and the place.
pub fn name_lives_as_long_as_a_buffer_holds()
    ensures { name_lives_as_long_as_a_buffer }
{}

/// An object sent a second time before anybody has read: each sending has a buffer, and both have the handle 1.
pub fn object_sent_twice_holds()
    ensures { object_sent_twice }
{}

/// An object that is called and sent by its handle reaches its owner as the owner's own pointer and cookie.
pub fn object_comes_home_holds()
    ensures { object_comes_home }
{}

/// A known pointer with another cookie is refused (X11), and no object of that parcel is made, not even those before it.
pub fn other_cookie_holds()
    ensures { other_cookie }
{}

/// One-way calls take at most half of the window: then even an empty one is refused (X14), since its buffer needs 8 bytes.
pub fn half_of_the_window_holds()
    ensures { half_of_the_window }
{}

/// Two-way calls may take all of the window that is free, and are refused beyond that (X13).
pub fn no_room_holds()
    ensures { no_room }
{}

/// Releasing a handle takes nothing from what a buffer carries (N2), and freeing the buffer ends the name (N1).
pub fn a_buffer_carries_holds()
    ensures { a_buffer_carries }
{}

/// An object sent weakly, which nobody holds strongly, can't be acquired (N3) or called (X1), but can be asked for weakly.
pub fn weak_object_holds()
    ensures { weak_object }
{}

/// A server that calls back into the process that waits for it reaches the very thread that waits, and not another one that is in the loop.
pub fn nested_call_holds()
    ensures { nested_call }
{}

/// When the server of a call ends while a call that it made in turn is still served, the first caller learns of it only after that inner
/// call is over.
pub fn dead_server_holds()
    ensures { dead_server }
{}

/// Three one-way calls on one object are read one by one, each when the one before it is freed.
pub fn one_way_turns_holds()
    ensures { one_way_turns }
{}

/// A death notification is told, cleared and acknowledged, and only then is its clearing confirmed. A dead process's object can't be called
/// (X4).
pub fn death_told_holds()
    ensures { death_told }
{}
