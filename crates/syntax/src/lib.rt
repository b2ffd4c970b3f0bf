//! The units that a pattern is written with, and the reader that takes them off the caller's bytes.

#![tactic(auto)]

mod show;

ghost use Rattle.std.specs.Prelude.{◌≡◌, ℕ, ◌+◌, ◌*◌, ◌<◌, ◌≤◌, ◌⊎◌, List, [], ◌∷◌, length, MatchBool, MatchOption};
ghost use Rattle.syntax.specs.Spelling.{Among, Begins, Digit, Escapes, Special, Spells, Stuck, bare_specials};
ghost use Rattle.syntax.specs.Reading.{Next};

use stops::Stop;

/// What takes one byte of a frame: a byte, or the period.
#[derive(Clone, Copy, Debug, PartialEq, Eq)]
pub enum Letter {
    Byte(u8),
    Any,
}

/// A repeat sign: `*`, `+` or `?`.
#[derive(Clone, Copy, Debug, PartialEq, Eq)]
pub enum Sign {
    Star,
    Plus,
    Opt,
}

/// A unit of a pattern: a letter, one of `(`, `|` and `)`, or a repeat sign.
#[derive(Clone, Copy, Debug, PartialEq, Eq)]
pub enum PatternUnit {
    Plain(Letter),
    Open,
    Bar,
    Close,
    Repeat(Sign),
}

/// A unit and the place of its first byte in the pattern.
#[derive(Clone, Copy, Debug, PartialEq, Eq)]
pub struct Placed {
    pub unit: PatternUnit,
    pub place: usize,
}

/// A stop, and the place in the pattern that it names.
#[derive(Clone, Copy, Debug, PartialEq, Eq)]
pub struct Fault {
    pub stop: Stop,
    pub place: usize,
}

impl Fault {
    /// A stop that names a place.
    pub fn at(stop: Stop, place: usize) -> Fault
        ensures { (result.stop ≡ stop) × (result.place ≡ place) }
    {
        Fault { stop, place }
    }
}

fn is_special(b: u8) -> bool
    ensures { MatchBool result (Special b) (Special b → ⊥) }
{
    matches!(
        b,
        b'(' | b')'
            | b'|'
            | b'*'
            | b'+'
            | b'?'
            | b'.'
            | b'\\'
            | b'['
            | b']'
            | b'{'
            | b'}'
            | b'^'
            | b'$'
    )
}

/// The value of a hexadecimal digit.
fn digit(b: u8) -> Option<u32>
    ensures { MatchOption result ((v : ℕ) → Digit b v → ⊥) (λ v. Digit b v × (v < 16)) }
{
    char::from(b).to_digit(16)
}

/// The value of two hexadecimal digits.
fn two_digits(high: u8, low: u8) -> Option<u8>
    ensures { MatchOption result ((v w : ℕ) → Digit high v → Digit low w → ⊥) (λ b. ((v : ℕ) × (w : ℕ) × Digit high v × Digit low w × (b ≡ 16 * v + w))) }
{
    Some((16 * digit(high)? + digit(low)?) as u8)
}

/// The unit that a byte other than a backslash is by itself.
fn lone(b: u8) -> Option<PatternUnit>
    ensures { MatchOption result ((b ≡ 92) ⊎ Among b bare_specials) (λ u. Spells (b ∷ []) u) }
{
    match b {
        b'(' => Some(PatternUnit::Open),
        b')' => Some(PatternUnit::Close),
        b'|' => Some(PatternUnit::Bar),
        b'*' => Some(PatternUnit::Repeat(Sign::Star)),
        b'+' => Some(PatternUnit::Repeat(Sign::Plus)),
        b'?' => Some(PatternUnit::Repeat(Sign::Opt)),
        b'.' => Some(PatternUnit::Plain(Letter::Any)),
        _ if is_special(b) => None,
        _ => Some(PatternUnit::Plain(Letter::Byte(b))),
    }
}

/// The unit of the escape that begins the bytes, and what follows the escape.
fn escape(bytes: &[u8]) -> Option<(PatternUnit, &[u8])>
    ensures { MatchOption result ((rest : List ℕ) → bytes.now ≡ 92 ∷ rest → Escapes rest → ⊥) (λ x. Begins bytes.now x.0 x.1.now) }
{
    match bytes {
        [b'\\', b'x', high, low, rest @ ..] => {
            let b = two_digits(*high, *low)?;
            Some((PatternUnit::Plain(Letter::Byte(b)), rest))
        }
        [b'\\', b, rest @ ..] if is_special(*b) => Some((
            PatternUnit::Plain(Letter::Byte(*b)),
            rest,
        )),
        _ => None,
    }
}

/// The unit that begins the bytes, and what follows it.
fn first_unit(bytes: &[u8]) -> Option<(PatternUnit, &[u8])>
    requires { 0 < length bytes.now }
    ensures { MatchOption result (Stuck bytes.now) (λ x. Begins bytes.now x.0 x.1.now) }
{
    match bytes {
        [b'\\', ..] => escape(bytes),
        [b, rest @ ..] => Some((lone(*b)?, rest)),
        [] => None,
    }
}

/// A pattern and the place that it is read to.
#[derive(Drop)]
pub struct Reader<'a> {
    pattern: &'a [u8],
    place: usize,
}

impl<'a> Reader<'a> {
    /// A reader before the first unit of the pattern.
    pub fn new(pattern: &'a [u8]) -> Reader<'a>
        ensures { (result.pattern.now ≡ pattern.now) × (result.place ≡ 0) }
    {
        Reader { pattern, place: 0 }
    }

    /// The place of the next unit; none where every byte of the pattern is read.
    pub fn next_place(&self) -> Option<usize>
        ensures { MatchOption result (length self.now.pattern.now ≤ self.now.place) (λ p. (p ≡ self.now.place) × (p < length self.now.pattern.now)) }
    {
        (self.place < self.pattern.len()).then_some(self.place)
    }

    /// The next unit with its place, and nothing at the end; stop 2 where the bytes begin no unit.
    pub fn next_unit(&mut self) -> Result<Option<Placed>, Fault>
        ensures same { self.new.pattern.now ≡ self.old.pattern.now }
        ensures reads { Next self.old.pattern.now self.old.place result self.new.place }
    {
        let pattern = self.pattern;
        let place = self.place;
        if place >= pattern.len() {
            return Ok(None);
        }
        let Some((unit, rest)) = first_unit(&pattern[place..]) else {
            return Err(Fault::at(Stop::NoUnit, place));
        };
        self.place = pattern.len() - rest.len();
        Ok(Some(Placed { unit, place }))
    }
}
