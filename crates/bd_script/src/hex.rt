//! Bytes in hex: lower-case pairs of digits, or `-` for none.

ghost use Rattle.std.specs.{Prelude.{◌≡◌, ◌≤◌, [], ◌∷◌, ℕ, List, Some, length, IfOk, IfSome}, List.{flat_map}};
ghost use Rattle.std.specs.{Option.{option_map}, Str.{bytes_eq}};
ghost use Rattle.bd_uapi.specs.Bytes.{IsBytes};
ghost use Rattle.bd_script.specs.Hex.{digit_of, hex_pair, hex_word, pairs_of, hex_of};

use std::alloc::{AllocError, Global};

// The most bytes that a word spells.
const MOST_BYTES: usize = 4_194_304;

// What a digit of hex stands for.
fn digit_value(byte: u8) -> Option<u8>
    ensures { result ≡ digit_of byte }
{
    match byte {
        b'0'..=b'9' => Some(byte - b'0'),
        b'a'..=b'f' => Some(byte - b'a' + 10),
        _ => None,
    }
}

// Whether a word stands for nothing.
pub fn is_nothing(word: &[u8]) -> bool
    ensures { result ≡ bytes_eq word.now (45 ∷ []) }
{
    word == b"-".as_slice()
}

// The bytes that pairs of digits spell.
fn pairs_in(alloc: Global, word: &[u8]) -> Result<Option<Vec<u8>>, AllocError>
    ensures exact { IfOk result (λ found. option_map (λ v. v.items) found ≡ pairs_of word.now) }
    ensures spelled { IfOk result (λ found. IfSome found (λ bytes. word.now ≡ flat_map hex_pair bytes.items)) }
{
    let mut bytes = Vec::new(alloc);
    let mut rest = word;
    while let [high, low, after @ ..] = rest {
        let (Some(high), Some(low)) = (digit_value(*high), digit_value(*low)) else {
            return Ok(None);
        };
        bytes.push(high * 16 + low)?;
        rest = after;
    }
    Ok(if rest.is_empty() { Some(bytes) } else { None })
}

// Whether a word spells bytes.
pub fn is_hex(word: &[u8]) -> bool {
    let is_whole = word.len() % 2 == 0 && !word.is_empty() && word.len() <= 2 * MOST_BYTES;
    is_nothing(word) || is_whole && word.iter().all(|byte| digit_value(*byte).is_some())
}

/// What bytes are spelled as is read as these bytes, up to the most that a word spells.
pub fn hex_is_read()
    ensures { (bytes : List ℕ) → IsBytes bytes → length bytes ≤ 4194304 → hex_of (hex_word bytes) ≡ Some bytes }
{}

/// The bytes that a word spells, if it spells at most 4194304.
pub fn bytes_in(alloc: Global, word: &[u8]) -> Result<Option<Vec<u8>>, AllocError>
    ensures exact { IfOk result (λ found. option_map (λ v. v.items) found ≡ hex_of word.now) }
    // What is read is spelled so.
    ensures spelled { IfOk result (λ found. IfSome found (λ bytes. word.now ≡ hex_word bytes.items)) }
{
    if is_nothing(word) {
        return Ok(Some(Vec::new(alloc)));
    }
    if word.is_empty() || word.len() > 2 * MOST_BYTES {
        return Ok(None);
    }
    pairs_in(alloc, word)
}
