//! Laws of every history: each is the contract of a function that does nothing.

ghost use Rattle.bd_laws.specs.Laws.{NothingIsPending, SpacesAreTidy, ItemsAreToldApart, FramesAreStacks, FollowingIsLocal, WhomAStepReaches, NoStepIsNeeded};

/// Nothing is pending between two steps: in the space after a history each name rests on a reference, each object stays, each
/// death notification is cleared or stands on a name, Notices stand exactly where they are wanted, no one-way call is ripe and
/// no call is abandoned.
pub fn nothing_is_pending()
    ensures { NothingIsPending }
{}

/// What each step may rest on: that nothing is pending, and that objects, one-way calls, work items, death notifications and
/// frames are where they belong.
pub fn spaces_are_tidy()
    ensures { SpacesAreTidy }
{}

/// No two items of one todo list have one identity.
pub fn items_are_told_apart()
    ensures { ItemsAreToldApart }
{}

/// The frames of a thread are a stack: they stand in the order in which they were made, each deeper than those before it, and
/// the innermost is the last.
pub fn frames_are_stacks()
    ensures { FramesAreStacks }
{}

/// What follows a change is looked for only where the change was: if of all other names and objects nothing is pending, what
/// follows is what follows there.
pub fn following_is_local()
    ensures { FollowingIsLocal }
{}

/// Whom a step makes ready, or no longer ready, besides its own seat: those alone whose own list it fills or empties, or the
/// list of whose process, or whose thread it ends.
pub fn whom_a_step_reaches()
    ensures { WhomAStepReaches }
{}

/// Where a step is told a note or a fault, nothing in the space is another than before, except how many steps were made.
pub fn no_step_is_needed()
    ensures { NoStepIsNeeded }
{}
