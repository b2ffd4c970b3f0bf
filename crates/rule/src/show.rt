//! An entry in words.

use crate::word::{Entry, Kind};
use std::fmt;

/// The kind, the byte of a BYTE, and the positions that link to it.
impl fmt::Display for Entry {
    fn fmt<W: fmt::Write>(&self, f: &mut fmt::Formatter<W>) -> fmt::Result {
        let kind = self.kind;
        write!(f, "{kind}")?;
        if let Kind::Byte = kind {
            let b = self.byte;
            write!(f, " {b:02X}")?;
        }
        if let Some(first) = self.first {
            write!(f, " from {first}")?;
        }
        if let Some(second) = self.second {
            write!(f, " and {second}")?;
        }
        Ok(())
    }
}
