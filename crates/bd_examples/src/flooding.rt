//! Worked examples of reports of one-way flooding, and of a driver with the most seats.

ghost use Rattle.bd_examples.specs.Histories.{Stands};
ghost use Rattle.bd_examples.specs.Flooding.{flooding_reported, quarter_of_the_window, more_than_a_quarter, offsets_count, report_behind_notices, senders_apart, one_of_two_marked, freed_counts_no_longer, two_way_calls_apart, replies_apart, refused_calls_apart, mark_of_the_process, marked_when_accepted, mark_ends_with_the_process, buffers_of_the_process_before, last_seat_called, last_seat_ready};

/// With reports asked for, one-way calls that fill a quarter of a window aren't reported, and the next is. Once the quarter is freed a
/// further call isn't. A seat without a process can't ask for them (F4).
pub fn flooding_reported_holds()
    ensures { flooding_reported }
{}

/// A single call that takes exactly a quarter of the window isn't reported.
pub fn quarter_of_the_window_holds()
    ensures { quarter_of_the_window }
{}

/// A call one byte longer than a quarter of the window takes 8 bytes more than it, and is reported.
pub fn more_than_a_quarter_holds()
    ensures { more_than_a_quarter }
{}

/// A parcel's offsets count as its data do, and an empty call counts as 8 bytes.
pub fn offsets_count_holds()
    ensures { offsets_count }
{}

/// The report of flooding is read where the completion would be, behind the notices of the objects that the call sent.
pub fn report_behind_notices_holds()
    ensures { report_behind_notices }
{}

/// Each sending process has its own quarter: two senders that have more than a quarter of the window together, and neither of them alone,
/// aren't reported.
pub fn senders_apart_holds()
    ensures { senders_apart }
{}

/// Of two processes that send as much only the one that asked for reports gets one.
pub fn one_of_two_marked_holds()
    ensures { one_of_two_marked }
{}

/// A buffer counts for its sender until it is freed, and not only until it is read.
pub fn freed_counts_no_longer_holds()
    ensures { freed_counts_no_longer }
{}

/// A two-way call is never reported, not even behind a flood of one-way calls, and its buffer doesn't count.
pub fn two_way_calls_apart_holds()
    ensures { two_way_calls_apart }
{}

/// A reply is never reported, though the manager that replies floods the caller with one-way calls.
pub fn replies_apart_holds()
    ensures { replies_apart }
{}

/// A one-way call that is over the budget is refused (X14), and isn't reported beside that.
pub fn refused_calls_apart_holds()
    ensures { refused_calls_apart }
{}

/// Reports are asked for and given up for a whole process, by any thread of it, and what all its threads sent counts.
pub fn mark_of_the_process_holds()
    ensures { mark_of_the_process }
{}

/// Whether a call is reported is settled when it is accepted, by the mark of that moment, and not when its completion is read.
pub fn marked_when_accepted_holds()
    ensures { marked_when_accepted }
{}

/// A process that opens hasn't asked for reports, though the one before it had, at the same seat and with the same pid.
pub fn mark_ends_with_the_process_holds()
    ensures { mark_ends_with_the_process }
{}

/// What a process sent before it ended doesn't count for the process that opens at the same seat with the same pid.
pub fn buffers_of_the_process_before_holds()
    ensures { buffers_of_the_process_before }
{}

/// With 31 seats, the most that a driver has, the last one can be the manager's and be called, and the bits of the ready word are right up
/// to it.
pub fn last_seat_ready_holds()
    ensures answers { Stands last_seat_called }
    ensures ready { last_seat_ready }
{}
