//! The lines that the console reads.

ghost use Rattle.std.specs.Prelude.{ℕ, List, MatchOption};
ghost use Rattle.calls_console.specs.Lines.{Means, OfFrame, OfText, Reads};

use crate::number::{number, renter_number};
use lines::{Parts, Unknown};

/// What the console can be asked for.
#[derive(Clone, Copy, Debug, PartialEq, Eq)]
pub enum Command<'a> {
    /// To load the pattern.
    Load(&'a [u8]),
    /// To begin a frame of a renter, of so many bytes.
    Begin { renter: u8, length: u64 },
    /// To feed the bytes of the text, one after another, to a renter's frame.
    Feed { renter: u8, text: &'a [u8] },
    /// To finish a renter's frame.
    Finish { renter: u8 },
    /// To drop a renter's frame.
    Drop { renter: u8 },
    /// To read the meter.
    Meter,
}

/// The lines that the console knows, as it prints them below one that it does not know.
pub const KNOWN: &str =
    "  known are: load PATTERN, begin RENTER LENGTH, feed RENTER TEXT, finish RENTER, drop RENTER, meter,
  and lines that are blank or begin with #";

/// Reads `RENTER LENGTH`.
fn frame(rest: &[u8]) -> Option<(u8, u64)>
    ensures { MatchOption result ((renter bytes : ℕ) → OfFrame rest.now renter bytes → ⊥) (λ f. OfFrame rest.now f.0 f.1) }
{
    let parts = Parts::of(rest);
    Some((renter_number(parts.word)?, number(parts.rest)?))
}

/// Reads `RENTER TEXT`.
fn text(rest: &[u8]) -> Option<(u8, &[u8])>
    ensures { MatchOption result ((renter : ℕ) (bytes : List ℕ) → OfText rest.now renter bytes → ⊥) (λ t. OfText rest.now t.0 t.1.now) }
{
    let parts = Parts::of(rest);
    Some((renter_number(parts.word)?, parts.rest))
}

/// What a word asks for with what stands behind it.
fn asked(parts: Parts<'_>) -> Option<Command<'_>>
    ensures { Reads parts.entry.word.now parts.entry.rest.now result }
{
    match parts.word {
        b"load" => Some(Command::Load(parts.rest)),
        b"begin" => {
            let (renter, length) = frame(parts.rest)?;
            Some(Command::Begin { renter, length })
        }
        b"feed" => {
            let (renter, text) = text(parts.rest)?;
            Some(Command::Feed { renter, text })
        }
        b"finish" => {
            let renter = renter_number(parts.rest)?;
            Some(Command::Finish { renter })
        }
        b"drop" => {
            let renter = renter_number(parts.rest)?;
            Some(Command::Drop { renter })
        }
        b"meter" => parts.rest.is_empty().then_some(Command::Meter),
        _ => None,
    }
}

impl<'a> Command<'a> {
    /// What a line asks for; nothing where it is blank or a comment.
    pub fn of_line(line: &'a [u8]) -> Result<Option<Command<'a>>, Unknown<'a>>
        ensures { Means line.now result }
    {
        let Some(parts) = Parts::of_command(line) else {
            return Ok(None);
        };
        match asked(parts) {
            Some(command) => Ok(Some(command)),
            None => Err(Unknown { line }),
        }
    }
}
