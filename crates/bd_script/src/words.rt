//! The words of a line, and the numbers among them.

ghost use Rattle.std.specs.{Prelude.{◌≡◌, Some, None, map, IfOk, MatchResult}, Str.{bytes_eq}};
ghost use Rattle.bd_script.specs.{declared.script.Trouble.TheVariants.{Bad}, Hex.{hex_word, hex_of}};
ghost use Rattle.bd_script.specs.{Numbers.{number_of}, Text.{words, offsets_of}};
ghost use Rattle.bd_script.specs.Words.{ReadsAs, ReadsOrMemory, word_of, long_of};

use crate::hex::{bytes_in, is_nothing};
use crate::numbers::number;
use crate::script::Trouble;
use bd_space::Bytes;
use std::alloc::{AllocError, Global};

// The most offsets that a word names.
const MOST_OFFSETS: usize = 524_288;

// The words, between one or more spaces.
pub fn words_of(alloc: Global, text: &[u8]) -> Result<Vec<&[u8]>, AllocError>
    ensures { IfOk result (λ v. map (λ word. word.now) v.items ≡ words text.now) }
{
    text.split(|b| *b == b' ')
        .filter(|word| !word.is_empty())
        .collect(alloc)
}

// Whether a word is this name.
pub fn is(word: &[u8], name: &[u8]) -> bool
    ensures { result ≡ bytes_eq word.now name.now }
{
    word == name
}

// Reads a number that is at most this.
pub fn number_in(word: &[u8], most: u32) -> Result<u32, Trouble>
    ensures { ReadsAs result (number_of most word.now) }
{
    match number(word, most as u64) {
        Some(n) => Ok(n as u32),
        None => Err(Trouble::Bad),
    }
}

// Reads a number of 32 bits.
pub fn word_in(word: &[u8]) -> Result<u32, Trouble>
    ensures { ReadsAs result (word_of word.now) }
{
    number_in(word, u32::MAX)
}

// Reads a number of 64 bits.
pub fn long_in(word: &[u8]) -> Result<u64, Trouble>
    ensures { ReadsAs result (long_of word.now) }
{
    match number(word, u64::MAX) {
        Some(n) => Ok(n),
        None => Err(Trouble::Bad),
    }
}

// Reads bytes in hex, or the word for none.
pub fn hex_in(alloc: Global, word: &[u8]) -> Result<Bytes, Trouble>
    ensures exact { ReadsOrMemory result (hex_of word.now) }
    ensures spelled { IfOk result (λ bytes. word.now ≡ hex_word bytes) }
{
    match bytes_in(alloc, word)? {
        Some(bytes) => Ok(Bytes::new(bytes)),
        None => Err(Trouble::Bad),
    }
}

// Numbers of 64 bits with commas between them, or nothing.
pub fn offsets_in(alloc: Global, word: &[u8]) -> Result<Vec<u64>, Trouble>
    ensures { MatchResult result
        (λ v. offsets_of word.now ≡ Some v.items)
        (λ trouble. trouble ≡ Bad → offsets_of word.now ≡ None) }
{
    let mut offsets = Vec::new(alloc);
    if is_nothing(word) {
        return Ok(offsets);
    }
    for part in word.split(|b| *b == b',') {
        if offsets.len() == MOST_OFFSETS {
            return Err(Trouble::Bad);
        }
        offsets.push(long_in(part)?)?;
    }
    Ok(offsets)
}

// Whether a word is numbers of 64 bits with commas between them, or nothing.
pub fn are_numbers(word: &[u8]) -> bool {
    let mut count = 0usize;
    for part in word.split(|b| *b == b',') {
        if count == MOST_OFFSETS || number(part, u64::MAX).is_none() {
            return is_nothing(word);
        }
        count = count.saturating_add(1);
    }
    true
}
