//! A thread that reads, and what it has yet to read.

ghost use Rattle.std.specs.Prelude.{◌≡◌};
ghost use Rattle.bd_reader.specs.Readers.{flag as flag_of, is_set as it_is_set, more as one_more, fewer as one_fewer, is_refusal as it_refuses, is_completion as it_completes, sent as sent_by, ended as ended_by, read as read_by, read_more as read_more_by, without_reply as reply_told, without_call as call_told, told as told_of, delivered as delivered_by};

use bd_uapi::codes::*;

/// What a thread sends.
#[derive(Clone, Copy, Debug, PartialEq, Eq)]
pub enum Kind {
    Call,
    OneWay,
    Reply,
}

/// How that came out.
#[derive(Clone, Copy, Debug, PartialEq, Eq)]
pub enum Outcome {
    Taken,
    Refused,
    /// There was no call to reply to.
    NoCall,
}

/// Nothing was refused of the thread that isn't told to it.
pub const NO_REFUSAL: u32 = 0;
/// A call was, or a reply to nobody: a refusal tells it.
pub const REFUSED_CALL: u32 = 1;
/// Any other reply was: its completion tells it.
pub const REFUSED_REPLY: u32 = 2;

/// What a thread has left to be read by it. C has it too, and of numbers that it never writes there each is good: a flag is one that isn't 0.
#[repr(C)]
#[derive(Clone, Copy, Debug, PartialEq, Eq)]
pub struct Reader {
    /// Calls that it has to answer.
    pub serving: u32,
    /// Calls whose end it hasn't read.
    pub calling: u32,
    /// Refusals that it hasn't read.
    pub refusals: u32,
    /// Two-way calls of which it hasn't read that they were taken.
    pub completions: u32,
    /// Death notifications of which it hasn't read that they were taken back, at most.
    pub clearings: u32,
    /// Calls and replies of which it wasn't told that they were taken ..
    pub untold: u32,
    /// .. and of how many of these it has read that.
    pub completed: u32,
    /// What was refused of it and isn't told to it: `NO_REFUSAL`, `REFUSED_CALL` or `REFUSED_REPLY`.
    pub refusal: u32,
    /// What it has read, or will, isn't only what can wait for a reply.
    pub is_prompt: u32,
    /// Others have handed over some of it: what the engine has comes with that.
    pub is_behind: u32,
    /// There is a return for which its read has no room.
    pub is_full: u32,
}

#[inline(always)]
fn more(n: u32) -> u32
    ensures { result ≡ one_more n }
{
    if n == u32::MAX { n } else { n + 1 }
}

#[inline(always)]
fn fewer(n: u32) -> u32
    ensures { result ≡ one_fewer n }
{
    if n == 0 { 0 } else { n - 1 }
}

#[inline(always)]
fn flag(is_so: bool) -> u32
    ensures { result ≡ flag_of is_so }
{
    if is_so { 1 } else { 0 }
}

/// Whether what a number says is so.
#[inline(always)]
pub(crate) fn is_set(flag: u32) -> bool
    ensures { result ≡ it_is_set flag }
{
    flag != 0
}

/// That a call or a reply was taken.
#[inline(always)]
pub(crate) fn is_completion(code: u32) -> bool
    ensures { result ≡ it_completes code }
{
    code == BR_TRANSACTION_COMPLETE || code == BR_ONEWAY_SPAM_SUSPECT
}

#[inline(always)]
fn is_refusal(code: u32) -> bool
    ensures { result ≡ it_refuses code }
{
    code == BR_FAILED_REPLY || code == BR_DEAD_REPLY
}

// What stays refused where a completion is told and so many aren't.
#[inline(always)]
fn without_reply(untold: u32, refusal: u32) -> u32
    ensures { result ≡ reply_told untold refusal }
{
    if untold == 0 && refusal == REFUSED_REPLY {
        NO_REFUSAL
    } else {
        refusal
    }
}

// The same where a refusal is told.
#[inline(always)]
fn without_call(refusal: u32) -> u32
    ensures { result ≡ call_told refusal }
{
    if refusal == REFUSED_CALL {
        NO_REFUSAL
    } else {
        refusal
    }
}

impl Reader {
    /// A call or a reply of the thread was taken or refused.
    #[inline(always)]
    pub fn sent(&mut self, kind: Kind, outcome: Outcome)
        ensures { self.new ≡ sent_by kind outcome self.old }
    {
        match (kind, outcome) {
            (Kind::Call, Outcome::Taken) => {
                self.calling = more(self.calling);
                self.completions = more(self.completions);
                self.untold = more(self.untold);
            }
            (Kind::OneWay, Outcome::Taken) => {
                self.untold = more(self.untold);
                self.is_prompt = 1;
            }
            (Kind::Reply, Outcome::Taken) => {
                self.serving = fewer(self.serving);
                self.untold = more(self.untold);
                self.is_prompt = 1;
            }
            (Kind::Reply, Outcome::Refused) => {
                self.serving = fewer(self.serving);
                self.untold = more(self.untold);
                self.refusal = REFUSED_REPLY;
                self.is_prompt = 1;
            }
            _ => {
                self.refusals = more(self.refusals);
                self.refusal = REFUSED_CALL;
            }
        }
    }

    // A call of it was refused, or one that was taken gets no reply.
    #[inline(always)]
    fn ended(&mut self)
        ensures { self.new ≡ ended_by self.old }
    {
        if self.refusals == 0 {
            self.calling = fewer(self.calling);
        } else {
            self.refusals = fewer(self.refusals);
        }
        self.is_prompt = 1;
    }

    /// The thread has read a return; `is_one_way` is said of a call.
    #[inline(always)]
    pub(crate) fn read(&mut self, code: u32, is_one_way: bool)
        ensures { self.new ≡ read_by code is_one_way self.old }
    {
        if code == BR_NOOP {
            return;
        }
        if code == BR_TRANSACTION {
            if !is_one_way {
                self.serving = more(self.serving);
            }
            self.is_prompt = 1;
            return;
        }
        if code == BR_REPLY {
            self.calling = fewer(self.calling);
            self.is_prompt = 1;
            return;
        }
        if is_refusal(code) {
            self.ended();
            return;
        }
        self.read_more(code);
    }

    // The same of all others.
    #[inline(always)]
    fn read_more(&mut self, code: u32)
        ensures { self.new ≡ read_more_by code self.old }
    {
        if code == BR_TRANSACTION_COMPLETE {
            self.completions = fewer(self.completions);
            self.completed = more(self.completed);
            return;
        }
        if code == BR_ONEWAY_SPAM_SUSPECT {
            self.completed = more(self.completed);
        }
        if code == BR_CLEAR_DEATH_NOTIFICATION_DONE {
            self.clearings = fewer(self.clearings);
        }
        if self.calling != 0 && (code == BR_INCREFS || code == BR_ACQUIRE) {
            return;
        }
        self.is_prompt = 1;
    }

    /// The thread is told a return.
    #[inline(always)]
    pub(crate) fn told(&mut self, code: u32)
        ensures { self.new ≡ told_of code self.old }
    {
        if is_completion(code) {
            self.completed = fewer(self.completed);
            self.untold = fewer(self.untold);
            self.refusal = without_reply(self.untold, self.refusal);
        } else if is_refusal(code) {
            self.refusal = without_call(self.refusal);
        }
    }

    /// A read of the thread is answered. `is_left` is whether it has read more than that; `is_ready` whether the engine has more.
    #[inline(always)]
    pub fn delivered(&mut self, is_left: bool, is_ready: bool)
        ensures { self.new ≡ delivered_by is_left is_ready self.old }
    {
        let has_more = if self.calling != 0 {
            is_ready
        } else {
            self.untold != 0
        };
        let goes_on = is_set(self.is_prompt) && (is_set(self.is_full) || has_more);
        self.is_prompt = flag(is_left || goes_on);
        self.is_behind = 0;
        self.is_full = 0;
    }
}
