//! Worked examples of whole requests.

ghost use Rattle.bd_examples.specs.Writes.{unreadable, several, pointers_past_the_area, stream_too_long, full_stream, commands_by_their_bytes, writes_without_a_process, codes_refused_by_name};

/// A write runs its commands up to the first that can't be read (F1, F2, F3) or that a cause refuses, and the answer tells how many bytes
/// were consumed. An empty write is no step.
pub fn unreadable_holds()
    ensures { unreadable }
{}

/// A write of three commands takes three steps, and its answer has the notes of two of them. Of a seat without a process it is refused with
/// its first command (F4).
pub fn several_holds()
    ensures { several }
{}

/// Sums of a parcel's place and length don't wrap: a parcel whose end is past 2^64, or past the area, is outside it (X7).
pub fn pointers_past_the_area_holds()
    ensures { pointers_past_the_area }
{}

/// A stream of 4097 bytes is refused as a whole (F15), and is no step.
pub fn stream_too_long_holds()
    ensures { stream_too_long }
{}

/// A stream of 4096 bytes, the longest, is run: 1024 commands in 1024 steps.
pub fn full_stream_holds()
    ensures { full_stream }
{}

/// Every command by its bytes, in an order in which taking one code for another would show.
pub fn commands_by_their_bytes_holds()
    ensures { commands_by_their_bytes }
{}

/// A write of a seat without a process is refused only with its first command (F4). Of a parcel, being outside the area (X7) is told before
/// a wrong length of its offsets (X8).
pub fn writes_without_a_process_holds()
    ensures { writes_without_a_process }
{}

/// Five codes are refused by name, with their payload or without (F3). A known number with another size is unknown (F2), and a code without
/// its whole payload short (F1).
pub fn codes_refused_by_name_holds()
    ensures { codes_refused_by_name }
{}
