//! Lines taken apart.

ghost use Rattle.std.specs.Prelude.{◌⊎◌, MatchBool, MatchOption};
ghost use Rattle.lines.specs.Lines.{Blank, Comment, Divides};

use crate::show::Escaped;
use std::error::Error;
use std::fmt;

/// Whether a line has nothing but spaces.
pub fn is_blank(line: &[u8]) -> bool
    ensures { MatchBool result (Blank line.now) (Blank line.now → ⊥) }
{
    line.iter().all(|b| *b == b' ')
}

/// Whether a line begins with `#`.
pub fn is_comment(line: &[u8]) -> bool
    ensures { MatchBool result (Comment line.now) (Comment line.now → ⊥) }
{
    matches!(line, [b'#', ..])
}

/// A line taken apart at its first space: the word before it, and all that follows it.
#[derive(Clone, Copy, Debug, PartialEq, Eq)]
pub struct Parts<'a> {
    pub word: &'a [u8],
    pub rest: &'a [u8],
}

impl<'a> Parts<'a> {
    /// The parts of a line.
    pub fn of(line: &'a [u8]) -> Parts<'a>
        ensures { Divides line.now result.word.now result.rest.now }
    {
        match line.iter().position(|b| *b == b' ') {
            Some(i) => Parts {
                word: &line[..i],
                rest: &line[i + 1..],
            },
            None => Parts {
                word: line,
                rest: &[],
            },
        }
    }

    /// The parts of a line that asks for something; none where it is blank or a comment.
    pub fn of_command(line: &'a [u8]) -> Option<Parts<'a>>
        ensures { MatchOption result (Blank line.now ⊎ Comment line.now) (λ parts. (Blank line.now → ⊥) × (Comment line.now → ⊥) × Divides line.now parts.word.now parts.rest.now) }
    {
        if is_blank(line) || is_comment(line) {
            return None;
        }
        Some(Parts::of(line))
    }
}

/// A line that asks for what a program does not know.
#[derive(Clone, Copy, Debug, PartialEq, Eq)]
pub struct Unknown<'a> {
    pub line: &'a [u8],
}

impl fmt::Display for Unknown<'_> {
    fn fmt<W: fmt::Write>(&self, f: &mut fmt::Formatter<W>) -> fmt::Result {
        let line = Escaped(self.line);
        write!(f, "unknown command: {line}")
    }
}

impl Error for Unknown<'_> {}
