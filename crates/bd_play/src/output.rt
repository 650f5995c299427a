//! Standard output.

use bd_player::ProgramFault;
use std::io;
use std::io::{ErrorKind, Write};

/// A writer that notes whether something couldn't be written.
#[derive(Drop)]
pub struct Output<W: Drop> {
    out: W,
    failed: bool,
}

impl<W: Write + Drop> Output<W> {
    /// A writer to which nothing was written yet, so that nothing has failed.
    pub fn new(out: W) -> Output<W> {
        Output { out, failed: false }
    }

    /// Writes what is kept back. Whether everything could be written.
    pub fn end(&mut self) -> Result<(), ProgramFault> {
        if self.out.flush().is_err() || self.failed {
            return Err(ProgramFault::Output);
        }
        Ok(())
    }
}

impl<W: Write + Drop> Write for Output<W> {
    fn write(&mut self, buf: &[u8]) -> io::Result<usize> {
        let written = self.out.write(buf);
        if let Err(error) = &written {
            // What was interrupted is tried again.
            self.failed |= error.kind() != ErrorKind::Interrupted;
        }
        written
    }

    fn flush(&mut self) -> io::Result<()> {
        self.out.flush()
    }
}
