//! What holds of all that the threads of a process send.

ghost use Rattle.bd_sendings.specs.Laws.{EachIsKnownOnce, NobodyIsToldTwice, WhatIsUnknownStays, WhoIsToldHasSentIt};

/// A thread knows each object once, and of each object one thread at most is told.
pub fn each_is_known_once()
    ensures { EachIsKnownOnce }
{}

/// Who is told in another's place has sent the object itself.
pub fn who_is_told_has_sent_it()
    ensures { WhoIsToldHasSentIt }
{}

/// What was handed over isn't handed on.
pub fn nobody_is_told_twice()
    ensures { NobodyIsToldTwice }
{}

/// What isn't known is told by the rules.
pub fn what_is_unknown_stays()
    ensures { WhatIsUnknownStays }
{}
