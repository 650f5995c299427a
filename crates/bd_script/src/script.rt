//! Whole scripts.

ghost use Rattle.std.specs.{Prelude.{◌≡◌, IfOk, None, Some, MatchResult}, List.{list_any}};
ghost use Rattle.bd_uapi.specs.Limits.{IsSeats};
ghost use Rattle.bd_script.specs.Words.{ReadsOrMemory};
ghost use Rattle.bd_script.specs.Scripts.{SaysAs, error_at, read, is_bad, is_idle, line_of, script_of, seats_of, with_line};
ghost use Rattle.bd_script.specs.declared.script.Trouble.TheVariants.{Bad, Memory};

use crate::requests::verb_of;
use crate::words::{is, number_in, words_of};
use bd_space::Request;
use bd_uapi::MOST_SEATS;
use std::alloc::{AllocError, AllocFailed, Global};
use thiserror::Error;

/// What a line does.
#[derive(Drop, Debug)]
pub enum Verb {
    /// Calls the driver.
    Call(Request),
    /// Hands a request over.
    Post(Request),
    /// Looks at the driver's page once.
    Look,
    /// Looks until the stamp is at least this.
    Await(u32),
    /// Serves all mailboxes once.
    Serve,
    /// Takes the answer to what was handed over.
    Collect,
    /// Takes back what was handed over.
    Withdraw,
}

/// A line that runs.
#[derive(Drop, Debug)]
pub struct Line {
    /// Its number in the script, from 1.
    pub number: u64,
    /// Which seat does it, below the script's number of seats.
    pub seat: u32,
    /// What the seat does there.
    pub verb: Verb,
}

/// What a script says.
#[derive(Drop, Debug)]
pub struct Script {
    /// How many seats there are, 1 to 31.
    pub seats: u32,
    /// The lines that run, in the script's order.
    pub lines: Vec<Line>,
}

/// Why there is no script.
#[derive(Clone, Copy, Debug, PartialEq, Eq, Error)]
pub enum ScriptError {
    /// The first bad line, from 1; 0 where no line says how many seats there are.
    #[error("line {0} is bad")]
    Line(u64),
    /// Memory was refused.
    #[error("out of memory")]
    Memory,
}

/// Why a line's words say nothing.
#[derive(Clone, Copy, Debug, PartialEq, Eq)]
pub enum Trouble {
    /// They make no sense.
    Bad,
    /// Memory was refused.
    Memory,
}

impl From<AllocError> for Trouble {
    ghost from_gives = { λ _ e. e ≡ Memory };

    fn from(_e: AllocError) -> Trouble {
        Trouble::Memory
    }
}

impl<T: Drop> From<AllocFailed<T>> for Trouble {
    ghost from_gives = { λ _ e. e ≡ Memory };

    fn from(_e: AllocFailed<T>) -> Trouble {
        Trouble::Memory
    }
}

impl Trouble {
    // The trouble of the line with this number.
    fn at(self, number: u64) -> ScriptError
        ensures { result ≡ error_at self number }
    {
        match self {
            Trouble::Bad => ScriptError::Line(number),
            Trouble::Memory => ScriptError::Memory,
        }
    }
}

// Whether a byte stands in a line that is bad wherever it does: one outside ASCII, a TAB, a CR.
fn has_bad_byte(text: &[u8]) -> bool
    ensures { result ≡ list_any is_bad text.now }
{
    text.iter().any(|b| *b >= 128 || *b == b'\t' || *b == b'\r')
}

// Whether a line does nothing: it is empty, or a comment.
pub fn is_idle(text: &[u8]) -> bool
    ensures { result ≡ is_idle text.now }
{
    match text {
        [] => true,
        [first, ..] => *first == b'#',
    }
}

// The number of seats in the first line that isn't idle.
#[tactic(auto, unfolding(crate::specs::Scripts::seats_of))]
fn seats_in(alloc: Global, text: &[u8]) -> Result<u32, Trouble>
    ensures { ReadsOrMemory result (seats_of text.now) }
{
    let words = words_of(alloc, text)?;
    match words.as_slice() {
        [name, count] if is(name, b"seats") => match number_in(count, MOST_SEATS)? {
            0 => Err(Trouble::Bad),
            seats => Ok(seats),
        },
        _ => Err(Trouble::Bad),
    }
}

// A seat below the number of seats, and its verb.
#[tactic(auto, unfolding(crate::specs::Scripts::line_of))]
fn line_in(alloc: Global, seats: u32, number: u64, text: &[u8]) -> Result<Line, Trouble>
    ensures { ReadsOrMemory result (line_of seats number text.now) }
{
    let words = words_of(alloc, text)?;
    match words.as_slice() {
        [seat, verb, args @ ..] => {
            let seat = number_in(seat, MOST_SEATS)?;
            if seat >= seats {
                return Err(Trouble::Bad);
            }
            let verb = verb_of(alloc, verb, args)?;
            Ok(Line { number, seat, verb })
        }
        _ => Err(Trouble::Bad),
    }
}

// Adds what the line with this number says.
#[tactic(auto, unfolding(crate::specs::Scripts::with_line))]
fn add_line(alloc: Global, script: &mut Script, number: u64, text: &[u8]) -> Result<(), Trouble>
    ensures { MatchResult result
        (λ _. with_line number text.now (read script.old) ≡ Some (read script.new))
        (λ trouble. trouble ≡ Bad → with_line number text.now (read script.old) ≡ None) }
{
    if has_bad_byte(text) {
        return Err(Trouble::Bad);
    }
    if is_idle(text) {
        return Ok(());
    }
    if script.seats == 0 {
        script.seats = seats_in(alloc, text)?;
        return Ok(());
    }
    let line = line_in(alloc, script.seats, number, text)?;
    script.lines.push(line)?;
    Ok(())
}

/// What a script's bytes say.
///
/// # Errors
/// `Line` with the number of the first bad line, `Memory` where memory was refused.
#[tactic(auto, unfolding(crate::specs::Scripts::script_of))]
pub fn read_script(alloc: Global, bytes: &[u8]) -> Result<Script, ScriptError>
    ensures says { SaysAs result (script_of bytes.now) }
    ensures seats { IfOk result (λ s. IsSeats s.seats) }
{
    let mut script = Script {
        seats: 0,
        lines: Vec::new(alloc),
    };
    let mut number = 0u64;
    for text in bytes.split(|b| *b == b'\n') {
        number += 1;
        match add_line(alloc, &mut script, number, text) {
            Ok(()) => {}
            Err(trouble) => return Err(trouble.at(number)),
        }
    }
    if script.seats == 0 {
        return Err(ScriptError::Line(0));
    }
    Ok(script)
}
