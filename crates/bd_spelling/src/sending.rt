//! Bytes to where they are written. It takes no memory, and at an error it is known how far it came.

ghost use Rattle.std.specs.List.{flat_map};
ghost use Rattle.bd_spelling.specs.Writing.{Sends};

use crate::fault::Refused;
use std::io::{ErrorKind, Write};

/// Writes all of the bytes, in as many calls of the writer as it takes.
pub fn send<W: Write>(bytes: &[u8], out: &mut W) -> Result<(), Refused>
    ensures { Sends (W.contents out.old) (W.contents out.new) result bytes.now }
{
    let mut sent = 0;
    for _ in 0..u64::MAX {
        if sent == bytes.len() {
            return Ok(());
        }
        match out.write(&bytes[sent..]) {
            Ok(0) => return Err(Refused),
            Ok(more) => sent += more,
            Err(error) => match error.kind() {
                ErrorKind::Interrupted => (),
                _ => return Err(Refused),
            },
        }
    }
    Err(Refused)
}

/// Writes pieces, one after the other.
pub fn send_all<W: Write>(pieces: &[&[u8]], out: &mut W) -> Result<(), Refused>
    ensures { Sends (W.contents out.old) (W.contents out.new) result (flat_map (λ p. p.now) pieces.now) }
{
    for piece in pieces {
        send(piece, out)?;
    }
    Ok(())
}
