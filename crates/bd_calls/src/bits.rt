//! Words of 32 bits, bit by bit.
#![tactic(auto)]

ghost use Rattle.std.specs.Prelude.{ℕ, ◌≡◌, ◌≢◌, ◌==◌, ◌&&◌, ◌<◌, true, if◌then◌else◌};
ghost use Rattle.std.specs.Int.{bit_at};

/// The place of the lowest bit that is set.
#[inline(always)]
pub(crate) fn lowest(word: u32) -> u32
    requires { word ≢ 0 }
    ensures bound { result < 32 }
    ensures set { bit_at word result ≡ 1 }
{
    word.trailing_zeros()
}

/// The word without one of its bits.
#[inline(always)]
pub(crate) fn without(word: u32, at: u32) -> u32
    requires bound { at < 32 }
    requires set { bit_at word at ≡ 1 }
    ensures smaller { result < word }
    ensures others { (i : ℕ) → i < 32 → i ≢ at → bit_at result i ≡ bit_at word i }
    ensures cleared { bit_at result at ≡ 0 }
{
    word & !(1 << at)
}

/// The word with one bit set or not.
#[inline(always)]
pub(crate) fn with_bit(word: u32, at: u32, set: bool) -> u32
    requires { at < 32 }
    ensures { (i : ℕ) → i < 32 → bit_at result i ≡ (if i == at then (if set then 1 else 0) else bit_at word i) }
{
    if set {
        word | 1 << at
    } else {
        word & !(1 << at)
    }
}

/// The word's lowest bits, so many.
#[inline(always)]
pub(crate) fn low(word: u32, count: u32) -> u32
    requires { count < 32 }
    ensures kept { (i : ℕ) → i < count → bit_at result i ≡ bit_at word i }
    ensures no_more { (i : ℕ) → bit_at result i ≡ 1 → i < count }
{
    word & ((1 << count) - 1)
}

/// Whether the other word has each bit that the first one has.
#[inline(always)]
pub(crate) fn is_within(word: u32, other: u32) -> bool
    ensures { result ≡ true → (i : ℕ) → i < 32 → bit_at word i ≡ 1 → bit_at other i ≡ 1 }
{
    word & !other == 0
}
