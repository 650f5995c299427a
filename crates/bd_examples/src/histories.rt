//! Random histories, which together have every command, cause and note.

ghost use Rattle.bd_examples.specs.{Histories.{Stands}, WeakObjectsAndVerdicts.{weak_objects_and_verdicts}};
ghost use Rattle.bd_examples.specs.{DeadObjects.{dead_objects}, FullWindows.{full_windows}};
ghost use Rattle.bd_examples.specs.FaultyParcelsOfTwo.{faulty_parcels_of_two};
ghost use Rattle.bd_examples.specs.{FinishedNotifications.{finished_notifications}, HostileWrites.{hostile_writes}};
ghost use Rattle.bd_examples.specs.NotificationsOfOneCookie.{notifications_of_one_cookie};
ghost use Rattle.bd_examples.specs.{WeakHandlesOfTheDead.{weak_handles_of_the_dead}, DeepCalls.{deep_calls}};
ghost use Rattle.bd_examples.specs.{CallsWithoutAManager.{calls_without_a_manager}, Exits.{exits}};
ghost use Rattle.bd_examples.specs.SeatsWithoutAProcess.{seats_without_a_process};

/// A history: weak and strong objects on their way, names that go, and verdicts.
pub fn weak_objects_and_verdicts_hold()
    ensures { Stands weak_objects_and_verdicts }
{}

/// A history: dead objects that are sent and asked for, and death notifications cleared while they are queued or told.
pub fn dead_objects_hold()
    ensures { Stands dead_objects }
{}

/// A history: windows without room, one-way budgets, turns that ripen, and frames whose server is gone.
pub fn full_windows_hold()
    ensures { Stands full_windows }
{}

/// A history: two seats with other cookies, unsupported objects, and dead objects known by a handle.
pub fn faulty_parcels_of_two_hold()
    ensures { Stands faulty_parcels_of_two }
{}

/// A history: notifications that were acknowledged, cleared or gone with a name, and refused openings.
pub fn finished_notifications_hold()
    ensures { Stands finished_notifications }
{}

/// A history: faulty parcels of many seats, and buffers that may not be freed.
pub fn hostile_writes_hold()
    ensures { Stands hostile_writes }
{}

/// A history: several notifications with one cookie, a name 0 beside the manager, and frames that close together.
pub fn notifications_of_one_cookie_hold()
    ensures { Stands notifications_of_one_cookie }
{}

/// A history: weak handles of dead objects, and buffers that are no more.
pub fn weak_handles_of_the_dead_hold()
    ensures { Stands weak_handles_of_the_dead }
{}

/// A history: nested calls, unread replies, and notices made anew.
pub fn deep_calls_hold()
    ensures { Stands deep_calls }
{}

/// A history: calls without a manager, and calls with handles that are not held.
pub fn calls_without_a_manager_hold()
    ensures { Stands calls_without_a_manager }
{}

/// A history: exits with calls and notifications open.
pub fn exits_hold()
    ensures { Stands exits }
{}

/// A history: exits of seats without a process, unread work outside the loop, and replies with weak handles.
pub fn seats_without_a_process_hold()
    ensures { Stands seats_without_a_process }
{}
