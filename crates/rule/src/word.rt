//! The words of the rule table: what a position is, and which positions link to it.

ghost use Rattle.std.specs.Prelude.{◌≡◌, ◌/◌, ◌%◌, ◌<◌};
ghost use Rattle.rule.specs.Words.{Holds, Numbered, Position, Says, TakenApart, first_in, kind_number, kind_of, position_in, second_in, word_takes};

use std::error::Error;
use std::fmt;
use syntax::{Letter, PatternUnit, Sign};

/// What stands at a position. Each kind is known by its number, as the top four bits of a word have it.
#[derive(Clone, Copy, Debug, PartialEq, Eq)]
pub enum Kind {
    Byte = 0,
    Any = 1,
    Open = 2,
    Bar = 3,
    Close = 4,
    Star = 5,
    Plus = 6,
    Opt = 7,
    End = 15,
}

impl From<Kind> for u32 {
    ghost from_gives = { λ kind number. (number ≡ kind_number kind) × (number < 16) };

    fn from(kind: Kind) -> u32 {
        kind as u32
    }
}

/// A number that is no kind's.
#[derive(Clone, Copy, Debug, PartialEq, Eq)]
pub struct UnknownKind(pub u32);

impl fmt::Display for UnknownKind {
    fn fmt<W: fmt::Write>(&self, f: &mut fmt::Formatter<W>) -> fmt::Result {
        write!(f, "no kind has the number {}", self.0)
    }
}

impl Error for UnknownKind {}

impl TryFrom<u32> for Kind {
    type Error = UnknownKind;

    ghost try_from_gives = { Numbered };

    fn try_from(number: u32) -> Result<Kind, UnknownKind> {
        match number {
            0 => Ok(Kind::Byte),
            1 => Ok(Kind::Any),
            2 => Ok(Kind::Open),
            3 => Ok(Kind::Bar),
            4 => Ok(Kind::Close),
            5 => Ok(Kind::Star),
            6 => Ok(Kind::Plus),
            7 => Ok(Kind::Opt),
            15 => Ok(Kind::End),
            _ => Err(UnknownKind(number)),
        }
    }
}

impl From<PatternUnit> for Kind {
    ghost from_gives = { λ unit kind. kind ≡ kind_of unit };

    fn from(unit: PatternUnit) -> Kind {
        match unit {
            PatternUnit::Plain(Letter::Byte(_)) => Kind::Byte,
            PatternUnit::Plain(Letter::Any) => Kind::Any,
            PatternUnit::Open => Kind::Open,
            PatternUnit::Bar => Kind::Bar,
            PatternUnit::Close => Kind::Close,
            PatternUnit::Repeat(Sign::Star) => Kind::Star,
            PatternUnit::Repeat(Sign::Plus) => Kind::Plus,
            PatternUnit::Repeat(Sign::Opt) => Kind::Opt,
        }
    }
}

/// The kind in letters.
impl fmt::Display for Kind {
    fn fmt<W: fmt::Write>(&self, f: &mut fmt::Formatter<W>) -> fmt::Result {
        f.write_str(match self {
            Kind::Byte => "BYTE",
            Kind::Any => "ANY",
            Kind::Open => "OPEN",
            Kind::Bar => "BAR",
            Kind::Close => "CLOSE",
            Kind::Star => "STAR",
            Kind::Plus => "PLUS",
            Kind::Opt => "OPT",
            Kind::End => "END",
        })
    }
}

/// A word taken apart: the position's kind, the byte of a BYTE, and the positions that link to it, the smaller first.
#[derive(Clone, Copy, Debug, PartialEq, Eq)]
pub struct Entry {
    pub kind: Kind,
    pub byte: u8,
    pub first: Option<u16>,
    pub second: Option<u16>,
}

/// What stands in a field for a predecessor that is absent.
pub(crate) const ABSENT: u32 = 1023;

/// The kind in a word.
fn kind_in(word: u32) -> Result<Kind, UnknownKind>
    ensures { Numbered (word / 0x1000_0000) result }
{
    Kind::try_from(word >> 28)
}

/// The byte in a word.
fn byte_in(word: u32) -> u8
    ensures { result ≡ (word / 0x10_0000) % 0x100 }
{
    ((word >> 20) & 0xff) as u8
}

/// The predecessor in ten bits.
fn predecessor(field: u32) -> Option<u16>
    requires { field < 1024 }
    ensures { Holds field result × (result ≡ position_in field) }
{
    (field != ABSENT).then_some(field as u16)
}

/// The predecessors in a word.
pub(crate) fn predecessors(word: u32) -> (Option<u16>, Option<u16>)
    ensures { (result.0 ≡ first_in word) × (result.1 ≡ second_in word) }
{
    (predecessor((word >> 10) & 0x3ff), predecessor(word & 0x3ff))
}

/// Whether a word takes a byte.
pub(crate) fn takes(word: u32, byte: u8) -> bool
    ensures { result ≡ word_takes word byte }
{
    match kind_in(word) {
        Ok(Kind::Byte) => byte_in(word) == byte,
        Ok(Kind::Any) => true,
        _ => false,
    }
}

/// A predecessor as ten bits.
fn field(predecessor: Option<u16>) -> u32
    requires { Position predecessor }
    ensures { Holds result predecessor }
{
    predecessor.map_or(ABSENT, u32::from)
}

/// The word of an entry.
pub(crate) fn word_of(entry: Entry) -> u32
    requires { (Position entry.first) × (Position entry.second) }
    ensures { Says result entry.kind entry.byte entry.first entry.second }
{
    let fields = (field(entry.first) << 10) + field(entry.second);
    (u32::from(entry.kind) << 28) + (u32::from(entry.byte) << 20) + fields
}

impl TryFrom<u32> for Entry {
    type Error = UnknownKind;

    ghost try_from_gives = { TakenApart };

    fn try_from(word: u32) -> Result<Entry, UnknownKind> {
        let (first, second) = predecessors(word);
        Ok(Entry {
            kind: kind_in(word)?,
            byte: byte_in(word),
            first,
            second,
        })
    }
}
