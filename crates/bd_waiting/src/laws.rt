//! What holds of each thread that waits, and of all threads of a process.

ghost use Rattle.bd_waiting.specs.Laws.{AReadThatMayNotWaitIsAnswered, ItTellsWhatIsWanted, NoMoreComeThanMay, OneTellsForAll, WhoHasNoBellNeedNotBeAsked, WhoIsAwayIsNotToldOf, WhoWaitsIsToldOf};

/// Nobody who waits in a read is told of by nobody: who isn't told of has a herald.
pub fn who_waits_is_told_of()
    ensures { WhoWaitsIsToldOf }
{}

/// Of all idle threads of a process one is told of.
pub fn one_tells_for_all()
    ensures { OneTellsForAll }
{}

/// Whether it has something of its own matters of who has a doorbell alone.
pub fn who_has_no_bell_need_not_be_asked()
    ensures { WhoHasNoBellNeedNotBeAsked }
{}

/// Once its calls are made the bridge knows what it is to.
pub fn it_tells_what_is_wanted()
    ensures { ItTellsWhatIsWanted }
{}

/// A read that may not wait is answered.
pub fn a_read_that_may_not_wait_is_answered()
    ensures { AReadThatMayNotWaitIsAnswered }
{}

/// No more threads are asked for than may come.
pub fn no_more_come_than_may()
    ensures { NoMoreComeThanMay }
{}

/// Of who waits in no read and has no doorbell there is nothing to be told.
pub fn who_is_away_is_not_told_of()
    ensures { WhoIsAwayIsNotToldOf }
{}
