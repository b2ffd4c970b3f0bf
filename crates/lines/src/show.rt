//! Bytes, units and tables, as they are printed.

use rule::{Kind, Rule};
use std::fmt;
use syntax::{Letter, PatternUnit, Reader};

/// Bytes, of which those that are no printable ASCII show as the escapes of a pattern.
#[derive(Clone, Copy)]
pub struct Escaped<'a>(pub &'a [u8]);

impl fmt::Display for Escaped<'_> {
    fn fmt<W: fmt::Write>(&self, f: &mut fmt::Formatter<W>) -> fmt::Result {
        for b in self.0 {
            match *b {
                b' '..=b'~' => write!(f, "{}", char::from(*b))?,
                b => write!(f, "\\x{b:02x}")?,
            }
        }
        Ok(())
    }
}

/// The units of a pattern, a line each.
#[derive(Clone, Copy)]
pub struct Units<'a>(pub &'a [u8]);

impl fmt::Display for Units<'_> {
    fn fmt<W: fmt::Write>(&self, f: &mut fmt::Formatter<W>) -> fmt::Result {
        let mut reader = Reader::new(self.0);
        for position in 1..=self.0.len() {
            let Ok(Some(placed)) = reader.next_unit() else {
                break;
            };
            write!(f, "  unit at {}: {}", placed.place, Kind::from(placed.unit))?;
            if let PatternUnit::Plain(Letter::Byte(b)) = placed.unit {
                write!(f, " {b:02X}")?;
            }
            writeln!(f, ", position {position}")?;
        }
        Ok(())
    }
}

/// The words of a rule with what they say, a line each.
#[derive(Clone, Copy)]
pub struct Table<'a>(pub &'a Rule);

impl fmt::Display for Table<'_> {
    fn fmt<W: fmt::Write>(&self, f: &mut fmt::Formatter<W>) -> fmt::Result {
        for position in 0..=self.0.last() {
            if let Some(word) = self.0.word(position)
                && let Some(entry) = self.0.entry(position)
            {
                writeln!(f, "  {position}: {word:08X} {entry}")?;
            }
        }
        Ok(())
    }
}

/// Which rule there is after a refused load, by the number of its last position.
#[derive(Clone, Copy)]
pub struct Kept(pub Option<u16>);

impl fmt::Display for Kept {
    fn fmt<W: fmt::Write>(&self, f: &mut fmt::Formatter<W>) -> fmt::Result {
        match self.0 {
            Some(last) => write!(f, "the rule before stays: n = {last}"),
            None => f.write_str("no rule is loaded"),
        }
    }
}
