//! The returns of a stream.

ghost use Rattle.std.specs.{Prelude.{◌≡◌, [], ◌∷◌, MatchOption}, Iterator.{YieldsFirst, item_count}};
ghost use Rattle.bd_player.specs.Streams.{returns_in};

use bd_codec::read_return;
use bd_uapi::Return;

// The first return of a stream, and what stands behind it; None where none can be read.
fn split_return(stream: &[u8]) -> Option<(Return, &[u8])>
    ensures { MatchOption result (returns_in stream.now ≡ []) (λ r. returns_in stream.now ≡ r.0 ∷ returns_in r.1.now) }
{
    match read_return(stream) {
        Ok((told, len)) => Some((told, &stream[len..])),
        Err(_) => None,
    }
}

/// The returns of a stream, one after the other, up to where none can be read.
#[derive(Drop)]
pub(crate) struct Returns<'a>(&'a [u8]);

impl<'a> Returns<'a> {
    /// Those of this stream.
    pub(crate) fn of(stream: &'a [u8]) -> Returns<'a>
        ensures { result.0.now ≡ stream.now }
    {
        Returns(stream)
    }
}

impl Iterator for Returns<'_> {
    type Item = Return;

    ghost next_gives = { YieldsFirst (λ s. returns_in s.0.now) };

    ghost remaining = { item_count (λ s. returns_in s.0.now) };

    fn next(&mut self) -> Option<Return> {
        let (told, rest) = split_return(self.0)?;
        self.0 = rest;
        Some(told)
    }
}
