//! How a script is played.

ghost use Rattle.std.specs.Prelude.{◌≡◌, false, IfSome, None};
ghost use Rattle.bd_space.specs.Histories.{IsHistory};
ghost use Rattle.bd_spelling.specs.Records.{history_in};
ghost use Rattle.bd_player.specs.{Printing.{IsPrinted}, Workers.{fault_status}, declared.faults.ProgramFault.{ProgramFault}};

use crate::playing::{Played, play};
use crate::threads::play_threads;
use std::io::{Read, Write};
use std::sync::Wait;
use std::thread::Threads;

/// How a script is played.
#[derive(Clone, Copy, Debug, PartialEq, Eq)]
pub struct Manner {
    /// Whether each seat's lines run on a thread of their own.
    pub threads: bool,
    /// How many turns a line has.
    pub turns: u32,
}

/// Plays the script that a reader has, in this manner.
pub fn play_from<H: AllocGlobal + Threads + Wait + Sync, R: Read, W: Write, E: Write>(
    rt: &H,
    script: &mut R,
    manner: Manner,
    out: &mut W,
    err: &mut E,
) -> Played
    // Line by line the history is that of the script's lines, and the status what printing them came to.
    ensures plays { manner.threads ≡ false → IfSome result.history (IsPrinted (R.remaining script.old) manner.turns result.status) }
    // Without a history a fault is told.
    ensures fault { result.history ≡ None → (fault : ProgramFault) × (result.status ≡ fault_status fault) }
    // What is handed on as the history of the run is one, in either manner.
    ensures history { IfSome result.history (λ r. IsHistory (history_in r)) }
{
    if manner.threads {
        play_threads(rt, rt.alloc(), script, manner.turns, out, err)
    } else {
        play(rt.alloc(), script, manner.turns, out, err)
    }
}
