//! The returns that a thread reads and is told, one behind the other, as an engine gives them.

ghost use Rattle.std.specs.Prelude.{◌≡◌, ◌≤◌, ◌==◌, ◌&&◌, ◌||◌, length, drop};
ghost use Rattle.bd_reader.specs.Returns.{size_of as size_of_it, is_call as it_is_call, first_in, fits as it_fits, next_into, returns_in, up_to_call, call_at, fitting, size_of_all, has_call, read_all, told_all, is_all_told as all_is_told};

use crate::reader::{Reader, is_completion};
use bd_uapi::codes::{BR_REPLY, BR_TRANSACTION};
use bd_uapi::numbers::u32_at;

/// What a thread is told of its returns.
#[repr(C)]
#[derive(Clone, Copy, Debug, PartialEq, Eq)]
pub struct Told {
    /// How many bytes of them.
    pub size: usize,
    /// There is a call or a reply among these.
    pub has_call: bool,
    /// By these it is told of all that it has sent.
    pub is_all: bool,
}

/// A return more is told while so many bytes are left, as in the kernel.
pub(crate) const ROOM: u32 = 76;

const ONE_WAY: u32 = 1;

// How many bytes a return with this code has.
#[inline(always)]
fn size_of(code: u32) -> usize
    ensures { result ≡ size_of_it code }
{
    4 + (code / 0x1_0000 % 0x4000) as usize
}

// It brings a parcel, and ends a read.
#[inline(always)]
fn is_call(code: u32) -> bool
    ensures { result ≡ it_is_call code }
{
    code == BR_TRANSACTION || code == BR_REPLY
}

// The code of the return at a place, and whether it is a one-way call, if there is a whole one.
#[inline(always)]
fn return_at(returns: &[u8], at: usize) -> Option<(u32, bool)>
    requires { at ≤ length returns.now }
    ensures { result ≡ first_in (drop at returns.now) }
{
    if returns.len() - at < 4 {
        return None;
    }
    let code = u32_at(returns, at);
    if returns.len() - at < size_of(code) {
        return None;
    }
    let is_one_way = code == BR_TRANSACTION && u32_at(returns, at + 24) % 2 == ONE_WAY;
    Some((code, is_one_way))
}

// There is enough room for a return with this code.
#[inline(always)]
fn fits(code: u32, room: u32) -> bool
    ensures { result ≡ it_fits code room }
{
    room >= ROOM && size_of(code) <= room as usize
}

#[inline(always)]
fn either(a: bool, b: bool) -> bool
    ensures { result ≡ (a || b) }
{
    a || b
}

// The code of the return at a place that is told next, if there is one and so much room is enough for it.
#[inline(always)]
fn next_told(returns: &[u8], at: usize, room: u32) -> Option<u32>
    requires { at ≤ length returns.now }
    ensures { result ≡ next_into room (first_in (drop at returns.now)) }
{
    match return_at(returns, at) {
        Some((code, _)) if fits(code, room) => Some(code),
        _ => None,
    }
}

impl Reader {
    // Whether it was told of all that it has sent, if it was told a completion.
    #[inline(always)]
    fn is_all_told(&self, has_completion: bool) -> bool
        ensures { result ≡ (has_completion && (self.now.untold == 0)) }
    {
        has_completion && self.untold == 0
    }

    /// The thread has read these returns, of which a call or a reply is the last. Answers where that begins, or else where they end.
    #[inline(always)]
    pub fn read_all(&mut self, returns: &[u8]) -> usize
        ensures read { self.new ≡ read_all (up_to_call (returns_in returns.now)) self.old }
        ensures call { result ≡ call_at (returns_in returns.now) }
    {
        let mut at = 0;
        while let Some((code, is_one_way)) = return_at(returns, at) {
            self.read(code, is_one_way);
            if is_call(code) {
                return at;
            }
            at += size_of(code);
        }
        at
    }

    /// The thread is told so many of these returns as a read with so much room has room for.
    #[inline(always)]
    pub fn tell(&mut self, returns: &[u8], room: u32) -> Told
        ensures told { self.new ≡ told_all (fitting room (returns_in returns.now)) self.old }
        ensures size { result.size ≡ size_of_all (fitting room (returns_in returns.now)) }
        ensures within { result.size ≤ length returns.now }
        ensures room { result.size ≤ room }
        ensures call { result.has_call ≡ has_call (fitting room (returns_in returns.now)) }
        ensures all { result.is_all ≡ all_is_told (fitting room (returns_in returns.now)) self.new }
    {
        let (mut at, mut left) = (0, room);
        let (mut has_call, mut has_completion) = (false, false);
        while let Some(code) = next_told(returns, at, left) {
            self.told(code);
            has_call = either(has_call, is_call(code));
            has_completion = either(has_completion, is_completion(code));
            at += size_of(code);
            left -= size_of(code) as u32;
        }
        Told {
            size: at,
            has_call,
            is_all: self.is_all_told(has_completion),
        }
    }
}
