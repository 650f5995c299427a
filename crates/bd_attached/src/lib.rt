//! Of which process a seat's thread is, and how long.
#![tactic(auto)]

ghost use Rattle.bd_attached.specs.Threads.{ThreadsStay};

/// By a step each thread stays with its process, or ends: that of any other seat is what it was before. A seat without
/// one gets one only by opening a process or attaching to it. By a read all threads stay.
pub fn threads_stay()
    ensures { ThreadsStay }
{}
