//! What holds of each thread that reads.

ghost use Rattle.bd_reader.specs.Facts.{WhatCannotWaitIsTold, WhatWasRefusedIsToldFirst, CompletionsAreCounted};

/// Who has read what can't wait for a reply has something to be answered with, whatever it reads after that.
pub fn what_cannot_wait_is_told()
    ensures { WhatCannotWaitIsTold }
{}

/// What was refused of a thread stays so until it is told that.
pub fn what_was_refused_is_told_first()
    ensures { WhatWasRefusedIsToldFirst }
{}

/// How many completions a thread has read and wasn't told is counted.
pub fn completions_are_counted()
    ensures { CompletionsAreCounted }
{}
