//! The laws of every history: each is the contract of a function that does nothing.

ghost use Rattle.bd_audit.specs.Laws.{OneAtATime, ObjectsAreKept, GoneUnheld, OneWayCallsAreDueInTurn};
ghost use Rattle.bd_audit.specs.{Gifts.{NamesHaveGiftChains}, Replies.{RepliesReachTheirCallers}};
ghost use Rattle.bd_audit.specs.{Paths.{FramesLieOnOnePath}, Latest.{RepliesAnswerTheLatestOpenCall}};
ghost use Rattle.bd_audit.specs.{Ending.{CallsEndLatestFirst}, Streams.{StreamsSpellTheirItems}};
ghost use Rattle.bd_audit.specs.{HandedReplies.{RepliesAreHandedOut}, TurnCalls.{TurnsAreTaken, TurnsTellOfCalls}};
ghost use Rattle.bd_audit.specs.Hearing.{NoticesAreDue, OnlyOwnersHear, OwnersHearInOrder};

/// Of the one-way calls of one object whose buffers live, one at most is due or handed out.
pub fn one_at_a_time()
    ensures { OneAtATime }
{}

/// A one-way call that is due stands on the list of its receiver's process, never on a thread's; and while a one-way call
/// has a buffer, no later one on its object is due or handed out.
pub fn one_way_calls_are_due_in_turn()
    ensures { OneWayCallsAreDueInTurn }
{}

/// In the space of every beginning of a history, the object of each reference and of each name is in the space.
pub fn objects_are_kept()
    ensures { ObjectsAreKept }
{}

/// An object that a step takes out of the space has no reference from then on, and its identity never comes back.
pub fn gone_unheld()
    ensures { GoneUnheld }
{}

/// The one-way calls on an object are handed out in the order of their turns, and one at a time: when a call is handed out,
/// the buffers of all before it have come and gone.
pub fn turns_are_taken()
    ensures { TurnsAreTaken }
{}

/// Each object has its turns, and they are one list: the accepted one-way transactions on it, each once and by place, with
/// the places at which its call was handed out and its buffer went.
pub fn turns_tell_of_calls()
    ensures { TurnsTellOfCalls }
{}

/// Each name of a live process has a gift chain: rising places at which the object was given on, first by its owner or
/// as the context manager's, then by the receiver before, and last to the process.
pub fn names_have_gift_chains()
    ensures { NamesHaveGiftChains }
{}

/// A reading that takes a reply answers exactly one call: its thread made that call, the thread that replied was the one to
/// which it was handed out, the four stand in this order, and no other reading answers it.
pub fn replies_reach_their_callers()
    ensures { RepliesReachTheirCallers }
{}

/// The bytes that a reading answers spell a BR_NOOP and then what the items that it takes give, in their order: so the bytes
/// tell what an owner hears of its objects, and where a reply is handed out.
pub fn streams_spell_their_items()
    ensures { StreamsSpellTheirItems }
{}

/// Among what a reading hands out there is a BR_REPLY exactly where the reading takes a reply.
pub fn replies_are_handed_out()
    ensures { RepliesAreHandedOut }
{}

/// Open calls lie on paths: each frame has one open child at most, and of two frames in which a thread takes part, one is
/// on the way from the other by parents.
pub fn frames_lie_on_one_path()
    ensures { FramesLieOnOnePath }
{}

/// The call that a reading answers is the latest of its thread's calls whose Reply or Verdict isn't read yet: it was the
/// latest open one when the reply was made; each later call of that thread, up to the reading, had ended before that, and
/// what the thread was told of it was read before this reply, by an earlier reading or earlier by the same one; and of what
/// the thread was told of the call itself it had read nothing before.
pub fn replies_answer_the_latest_open_call()
    ensures { RepliesAnswerTheLatestOpenCall }
{}

/// Of the open calls of a thread that lives on, a step ends the latest only.
pub fn calls_end_latest_first()
    ensures { CallsEndLatestFirst }
{}

/// An owner hears of its object in one order: BR_INCREFS first, BR_DECREFS last, and between them each BR_ACQUIRE is followed
/// by its BR_RELEASE before another. Neither BR_RELEASE nor BR_DECREFS comes until what it takes back was acknowledged, and
/// only what was heard is acknowledged, once.
pub fn owners_hear_in_order()
    ensures { OwnersHearInOrder }
{}

/// Only threads of the process that owns an object read these returns of it, and only theirs are the acknowledgements.
pub fn only_owners_hear()
    ensures { OnlyOwnersHear }
{}

/// A Notice of an object is due exactly while its owner lives and was told other than what is so; there is one at most.
pub fn notices_are_due()
    ensures { NoticesAreDue }
{}
