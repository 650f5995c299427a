//! Text on its way to a writer.

use std::io::Write;
use std::{fmt, io};

// As many bytes as most lines have.
const BLOCK: usize = 512;

/// Gathers the pieces of a text and hands them to a writer in blocks, so that it isn't called for each piece. It takes
/// no memory.
#[derive(Drop)]
pub struct Blocks<'a, W> {
    out: &'a mut W,
    block: [u8; BLOCK],
    filled: usize,
}

impl<'a, W: Write> Blocks<'a, W> {
    /// Hands on to this writer.
    pub fn new(out: &'a mut W) -> Blocks<'a, W> {
        Blocks {
            out,
            block: [0; BLOCK],
            filled: 0,
        }
    }

    // Adds these bytes, if there is room for them.
    fn add(&mut self, bytes: &[u8]) -> bool {
        let filled = self.filled.min(BLOCK);
        if BLOCK - filled < bytes.len() {
            return false;
        }
        let end = filled + bytes.len();
        let block = &mut self.block[..];
        block[filled..end].copy_from_slice(bytes);
        self.filled = end;
        true
    }

    // Hands on what is gathered.
    fn write_out(&mut self) -> io::Result<()> {
        let filled = self.filled.min(BLOCK);
        self.filled = 0;
        self.out.write_all(&self.block[..filled])
    }

    // Hands on what is gathered, and then these bytes, or gathers them.
    fn write_out_and_add(&mut self, bytes: &[u8]) -> io::Result<()> {
        self.write_out()?;
        if self.add(bytes) {
            return Ok(());
        }
        self.out.write_all(bytes)
    }

    /// Hands on the rest of what was written here. Whether all could be written.
    pub fn end(mut self, written: fmt::Result) -> io::Result<()> {
        written?;
        self.write_out()
    }
}

impl<W: Write> fmt::Write for Blocks<'_, W> {
    fn write_str(&mut self, s: &str) -> fmt::Result {
        if self.add(s.as_bytes()) {
            return Ok(());
        }
        self.write_out_and_add(s.as_bytes()).map_err(|_| fmt::Error)
    }
}
