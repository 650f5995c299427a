//! Printing what lines say.

ghost use Rattle.std.specs.Prelude.{◌≡◌, false};
ghost use Rattle.bd_player.specs.Printing.{PrintsLine};

use crate::blocks::Blocks;
use crate::faults::{DONE, after_writing};
use crate::said::Said;
use crate::sink::Sink;
use std::fmt::Write as _;
use std::io::Write;

/// Prints what a line said, and answers the status so far. It is the greatest that was asked for, and at least that of
/// a fault where a line couldn't be written.
pub fn print<W: Write>(number: u64, said: &Said, out: &mut W, status: u8) -> u8
    ensures { PrintsLine status result said.now }
{
    let status = status.max(said.status());
    let mut line = Blocks::new(out);
    let written = writeln!(line, "{number}: {said}");
    after_writing(line.end(written), status)
}

/// Prints each line's saying as it comes.
pub struct Printer<'a, W> {
    out: &'a mut W,
    status: u8,
}

impl<'a, W: Write> Printer<'a, W> {
    /// Prints here. The status is at first that of lines that are done.
    pub fn new(out: &'a mut W) -> Printer<'a, W>
        ensures { result.status ≡ 0 }
    {
        Printer { out, status: DONE }
    }

    /// The status in the end.
    pub fn into_status(self) -> u8
        ensures { result ≡ self.entry.status }
    {
        let Printer { out: _, status } = self;
        status
    }
}

impl<W: Write> Sink for Printer<'_, W> {
    ghost takes = { λ s number said t. PrintsLine s.status t.status said };

    ghost is_full = { λ _. false };

    fn accept(&mut self, number: u64, said: Said) -> bool {
        self.status = print(number, &said, self.out, self.status);
        true
    }
}
