//! The first bytes of a reader.

ghost use Rattle.std.specs.Prelude.{◌<◌, ◌≤◌, length, take, IfOk};
ghost use Rattle.std.specs.Io.KnownBytes.{Consumes, IsAtEnd};

use std::io;
use std::io::{ErrorKind, Read};

// How often a reader is asked before it is given up, whether it then gives bytes or tells of a signal.
const TRIES: u32 = 1_000_000;

/// Fills the slice with a reader's first bytes, or its front with all that there are: how many.
pub fn read_front<R: Read>(reader: &mut R, front: &mut [u8]) -> io::Result<usize>
    ensures within { IfOk result (λ n. n ≤ length front.new) }
    ensures front { IfOk result (λ n. Consumes (R.remaining reader.old) (R.remaining reader.new) (take n front.new)) }
    ensures short { IfOk result (λ n. n < length front.new → IsAtEnd (R.remaining reader.new)) }
{
    let mut at = 0;
    for _ in 0..TRIES {
        if at >= front.len() {
            return Ok(at);
        }
        match reader.read(&mut front[at..]) {
            Ok(0) => return Ok(at),
            Ok(n) => at += n,
            Err(error) => {
                if error.kind() != ErrorKind::Interrupted {
                    return Err(error);
                }
            }
        }
    }
    Err(io::Error::from(ErrorKind::Interrupted))
}
