//! Numbers that there may not be, as text.

use std::fmt;

/// A number, printed as a dash where there is none.
#[derive(Drop)]
pub(crate) struct OrDash(pub(crate) Option<u32>);

impl fmt::Display for OrDash {
    fn fmt<W: fmt::Write>(&self, f: &mut fmt::Formatter<W>) -> fmt::Result {
        match self.0 {
            Some(number) => write!(f, "{number}"),
            None => f.write_str("-"),
        }
    }
}
