//! The descriptors that come with a request.

ghost use Rattle.std.specs.Prelude.{◌≡◌};
ghost use Rattle.bd_tickets.specs.Came.{kept as kept_of, WhatComesIsKeptWhole};

/// How many of the descriptors that came with a request are its own. The others are closed at once, or else another request would get them. It
/// says how many it has; `is_whole` is whether they came in one piece, and `is_run` whether it is run.
#[inline(always)]
pub fn kept_descriptors(wanted: u32, came: u32, is_whole: bool, is_run: bool) -> u32
    ensures { result ≡ kept_of wanted came is_whole is_run }
{
    if is_run && is_whole && came == wanted {
        came
    } else {
        0
    }
}

/// What comes with a request is its own as a whole, if it is run and has said so, or closed as a whole.
pub fn what_comes_is_kept_whole()
    ensures { WhatComesIsKeptWhole }
{}
