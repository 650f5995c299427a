//! Whose window a buffer is in, by where it was made.

ghost use Rattle.std.specs.Prelude.{◌≡◌};
ghost use Rattle.bd_buffers.specs.Homes as spec;

use bd_keys::WordKey;

/// By what the home of the buffer made there is found.
pub(crate) fn home_key(made: u64) -> WordKey
    ensures { result ≡ spec.home_key made }
{
    WordKey {
        process: 0,
        word: made,
    }
}
