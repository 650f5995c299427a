//! Why a line of a script is bad, for whoever wrote it. Nothing is read by this.

use crate::hex::is_hex;
use crate::numbers::number;
use crate::script::is_idle;
use crate::words::are_numbers;
use bd_uapi::MOST_SEATS;
use thiserror::Error;

/// What a bad line has in place of what.
#[derive(Clone, Copy, Debug, PartialEq, Eq, Error)]
#[error("column {column}, word {word}: expected {expected}, found {found}")]
pub struct Reason {
    /// Where, in bytes of the line, from 1.
    pub column: usize,
    /// Which of the line's words is the first bad one, from 1; one past the last where a word is missing.
    pub word: usize,
    /// What may stand there, for a person to read.
    pub expected: &'static str,
    /// What stands there instead, for a person to read.
    pub found: &'static str,
}

// The words behind each verb with a request, a letter for each: `b` is 0 or 1, `w` and `l` are numbers of 32 and
// 64 bits, `h` bytes in hex, `o` offsets.
static REQUESTS: [(&str, &str); 22] = [
    ("open", "www"),
    ("attach", "w"),
    ("manager", ""),
    ("spam", "b"),
    ("read", "w"),
    ("exitthread", ""),
    ("exitprocess", ""),
    ("write", "hh"),
    ("tx", "lwwho"),
    ("reply", "wwho"),
    ("enter", ""),
    ("exitloop", ""),
    ("free", "l"),
    ("increfs", "w"),
    ("acquire", "w"),
    ("release", "w"),
    ("decrefs", "w"),
    ("increfsdone", "ll"),
    ("acquiredone", "ll"),
    ("askdeath", "wl"),
    ("cleardeath", "wl"),
    ("deaddone", "l"),
];

// The same of the other verbs; `r` is a verb with a request.
static OTHERS: [(&str, &str); 6] = [
    ("look", ""),
    ("await", "w"),
    ("serve", ""),
    ("collect", ""),
    ("withdraw", ""),
    ("post", "r"),
];

// The words of a line, and of the first that says something: `i` is a seat, `v` a verb, `s` the word `seats`, and `n`
// how many there are.
const LINE: &str = "iv";

const FIRST: &str = "sn";

// What stands behind a verb of a table.
fn behind(verb: &[u8], table: &[(&'static str, &'static str)]) -> Option<&'static [u8]> {
    for (name, letters) in table {
        if name.as_bytes() == verb {
            return Some(letters.as_bytes());
        }
    }
    None
}

// What the first of these letters stands for.
fn expected(letters: &[u8]) -> &'static str {
    match letters {
        [] => "the end of the line",
        [b's', ..] => "the word seats",
        [b'n', ..] => "how many seats there are, 1 to 31",
        [b'i', ..] => "a seat, below the number of seats",
        [b'v', ..] => "a verb",
        [b'r', ..] => "a verb that has a request",
        [b'b', ..] => "0 or 1",
        [b'w', ..] => "a number up to 4294967295",
        [b'l', ..] => "a number up to 18446744073709551615",
        [b'h', ..] => "pairs of digits 0 to 9 and a to f, or -",
        _ => "numbers with commas between them, or -",
    }
}

// Whether a word that is no verb is what a letter stands for.
fn fits(letter: u8, word: &[u8], seats: u64) -> bool {
    match letter {
        b's' => word == b"seats".as_slice(),
        b'n' => matches!(number(word, u64::from(MOST_SEATS)), Some(1..)),
        b'i' => matches!(number(word, u64::MAX), Some(seat) if seat < seats),
        b'b' => number(word, 1).is_some(),
        b'w' => number(word, u64::from(u32::MAX)).is_some(),
        b'l' => number(word, u64::MAX).is_some(),
        b'h' => is_hex(word),
        _ => are_numbers(word),
    }
}

// What is to come after a word, if it is what the first of these letters stands for.
fn after(letters: &'static [u8], word: &[u8], seats: u64) -> Option<&'static [u8]> {
    match letters {
        [] => None,
        [b'r', ..] => behind(word, &REQUESTS),
        [b'v', ..] => match behind(word, &OTHERS) {
            Some(rest) => Some(rest),
            None => behind(word, &REQUESTS),
        },
        [letter, rest @ ..] => fits(*letter, word, seats).then_some(rest),
    }
}

// The first byte of a word that may stand nowhere: how many are before it, and what it is.
fn bad_byte(word: &[u8]) -> Option<(usize, &'static str)> {
    for (at, byte) in word.iter().enumerate() {
        match byte {
            b'\t' => return Some((at, "a TAB")),
            b'\r' => return Some((at, "a CR")),
            0xef if word[at..].starts_with(&[0xef, 0xbb, 0xbf]) => {
                return Some((at, "a byte-order mark"));
            }
            128.. => return Some((at, "a byte outside ASCII")),
            _ => (),
        }
    }
    None
}

// What is wrong of a line first, where there are so many seats, or 0 before that is said.
fn in_line(text: &[u8], seats: u64) -> Reason {
    let mut letters = if seats == 0 { FIRST } else { LINE }.as_bytes();
    let (mut column, mut word) = (1usize, 1usize);
    for part in text.split(|b| *b == b' ') {
        if let Some((at, found)) = bad_byte(part) {
            let (column, expected) = (column.saturating_add(at), "ASCII without TAB and CR");
            return Reason {
                column,
                word,
                expected,
                found,
            };
        }
        if !part.is_empty() && !is_idle(text) {
            let Some(rest) = after(letters, part, seats) else {
                let (expected, found) = (expected(letters), "this");
                return Reason {
                    column,
                    word,
                    expected,
                    found,
                };
            };
            letters = rest;
            word = word.saturating_add(1);
        }
        column = column.saturating_add(part.len()).saturating_add(1);
    }
    Reason {
        column: text.len().saturating_add(1),
        word,
        expected: expected(letters),
        found: "the end of the line",
    }
}

// How many seats a good first line says there are.
fn seats_of(text: &[u8]) -> u64 {
    let mut seats = 0;
    for word in text.split(|b| *b == b' ') {
        seats = number(word, u64::from(MOST_SEATS)).unwrap_or(seats);
    }
    seats
}

/// Why the line with this number is bad, the first that is; 0 where no line says how many seats there are.
pub fn explain(script: &[u8], number: u64) -> Reason {
    let (mut seats, mut before) = (0, 0u64);
    for text in script.split(|b| *b == b'\n') {
        before = before.saturating_add(1);
        if before == number {
            return in_line(text, seats);
        }
        if seats == 0 && !is_idle(text) {
            seats = seats_of(text);
        }
    }
    in_line(&[], seats)
}
