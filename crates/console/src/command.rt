//! The lines that the console reads.

ghost use Rattle.console.specs.Lines.{Means};

use lines::{Parts, Unknown};

/// What the console can be asked for.
#[derive(Clone, Copy, Debug, PartialEq, Eq)]
pub enum Command<'a> {
    /// To load the pattern.
    Load(&'a [u8]),
}

/// The lines that the console knows, as it prints them below one that it does not know.
pub const KNOWN: &str = "  known are: load PATTERN, and lines that are blank or begin with #";

impl<'a> Command<'a> {
    /// What a line asks for; nothing where it is blank or a comment.
    pub fn of_line(line: &'a [u8]) -> Result<Option<Command<'a>>, Unknown<'a>>
        ensures { Means line.now result }
    {
        let Some(parts) = Parts::of_command(line) else {
            return Ok(None);
        };
        match parts.word {
            b"load" => Ok(Some(Command::Load(parts.rest))),
            _ => Err(Unknown { line }),
        }
    }
}
