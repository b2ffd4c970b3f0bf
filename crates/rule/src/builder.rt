//! The table as it grows unit by unit, with the groups that are open.

ghost use Rattle.std.specs.Prelude.{◌≡◌, ℕ, ◌+◌, ◌-◌, ◌%◌, ◌<◌, ◌≤◌, List, [], ◌∷◌, ◌++◌, length, Some, None, Option as Maybe, MatchOption, MatchResult, slice_index};
ghost use Rattle.language.specs.Answers.{NoFault, OnlyFault};
ghost use Rattle.language.specs.Faults.{Before, Faulty, start};
ghost use Rattle.rule.specs.Standing.{Answers, LaidDown, NextWithin, OpenedLast, ReadTo, Ready, Room, Stands, Takes, loops_back, skip_of};
ghost use Rattle.rule.specs.Loading.{IsRuleOf};
ghost use Rattle.rule.specs.Words.{Holds, Position, Says, Under, absent, byte_of, firsts, seconds};
ghost use Rattle.stops.specs.Stops.{stop_number};
ghost use Rattle.syntax.specs.declared.PatternUnit.TheVariants.{Bar, Close, Open, Plain, Repeat};
ghost use Rattle.syntax.specs.declared.PatternUnit.{PatternUnit as Written};
ghost use Rattle.language.specs.Limits.{most_groups, most_units};

use crate::table::{POSITIONS, Rule};
use crate::word::{ABSENT, Entry, Kind, word_of};
use crate::{MOST_GROUPS, MOST_UNITS};
use stops::Stop;
use syntax::{Fault, Letter, PatternUnit, Placed, Reader, Sign};

/// An open group: the position of its OPEN, its last BAR so far, and the place of its `(`.
#[derive(Clone, Copy)]
struct Group {
    opened: u16,
    bar: Option<u16>,
    place: usize,
}

/// What the last unit was to a repeat sign: nothing to repeat, an operand, or a repeat sign.
#[derive(Clone, Copy)]
enum Last {
    Start,
    Operand,
    Sign,
}

/// The whole pattern counts as a group of its own.
const LEVELS: usize = MOST_GROUPS + 1;

/// The words of the units so far, and what the units to come need to know of them.
#[derive(Drop)]
struct Builder {
    words: [u32; POSITIONS],
    /// The next position: the units so far and the added OPEN.
    count: u16,
    groups: [Group; LEVELS],
    /// The open groups, the whole pattern among them.
    depth: usize,
    /// The one position so far that links to the next one.
    front: Option<u16>,
    /// Where the operand of a repeat sign would start.
    start: u16,
    last: Last,
}

/// The byte of a unit that stands for one, else 0.
fn byte(unit: PatternUnit) -> u8
    ensures { result ≡ byte_of unit }
{
    match unit {
        PatternUnit::Plain(Letter::Byte(b)) => b,
        _ => 0,
    }
}

/// The two, the smaller first, an only one first.
fn in_order(a: Option<u16>, b: Option<u16>) -> (Option<u16>, Option<u16>)
    ensures { (result.0 ≡ firsts a b) × (result.1 ≡ seconds a b) }
{
    match (a, b) {
        (Some(i), Some(j)) => (Some(i.min(j)), Some(i.max(j))),
        _ => (a.or(b), None),
    }
}

/// The word with one more predecessor, behind those that it has.
fn with_last(old: u32, position: u16) -> u32
    requires { (position < absent) × (old % 0x400 ≡ absent) }
    ensures { (kind : Kind) (byte : ℕ) (first : Maybe ℕ) → Under first position → Says old kind byte first None → Says result kind byte (firsts first (Some position)) (seconds first (Some position)) }
{
    if (old >> 10) & 0x3ff == ABSENT {
        old - (ABSENT << 10) + (u32::from(position) << 10)
    } else {
        old - ABSENT + u32::from(position)
    }
}

/// The position that a repeat sign is skipped from.
fn skipped_from(sign: Sign, start: u16) -> Option<u16>
    requires { start < absent }
    ensures { (result ≡ skip_of sign start) × Position result }
{
    matches!(sign, Sign::Star | Sign::Opt).then_some(start)
}

/// Whether a repeat sign links back to its operand.
fn leads_back(sign: Sign) -> bool
    ensures { result ≡ loops_back sign }
{
    matches!(sign, Sign::Star | Sign::Plus)
}

impl Builder {
    /// The added OPEN, and nothing else.
    fn new() -> Builder
        ensures { Stands result [] [] start }
    {
        let mut words = [0; POSITIONS];
        words[0] = word_of(Entry {
            kind: Kind::Open,
            byte: 0,
            first: None,
            second: None,
        });
        Builder {
            words,
            count: 1,
            groups: [Group {
                opened: 0,
                bar: None,
                place: 0,
            }; LEVELS],
            depth: 1,
            front: Some(0),
            start: 0,
            last: Last::Start,
        }
    }

    /// Stop 1 at the place of a byte that follows the most units.
    fn admit(&self, place: usize) -> Result<(), Fault>
        ensures { MatchResult result (λ _. self.now.count ≤ most_units) (λ f. (most_units < self.now.count) × (stop_number f.stop ≡ 1) × (f.place ≡ place)) }
    {
        if self.count > MOST_UNITS {
            return Err(Fault::at(Stop::TooLong, place));
        }
        Ok(())
    }

    /// The next unit of the pattern, and nothing at its end. Stop 1, for a byte behind the most units, comes before stop 2.
    fn next_unit(&self, reader: &mut Reader<'_>) -> Result<Option<Placed>, Fault>
        ensures same { reader.new.pattern.now ≡ reader.old.pattern.now }
        ensures reads { NextWithin self.now.count reader.old.pattern.now reader.old.place result reader.new.place }
    {
        if let Some(place) = reader.next_place() {
            self.admit(place)?;
        }
        reader.next_unit()
    }

    /// Lays the word of a unit, to which the front and one more position link.
    fn lay(&mut self, unit: PatternUnit, own: Option<u16>)
        requires { (Room self.old) × (Position own) }
        ensures { LaidDown self.old unit own self.new }
    {
        let (first, second) = in_order(self.front, own);
        let entry = Entry {
            kind: Kind::from(unit),
            byte: byte(unit),
            first,
            second,
        };
        self.words[usize::from(self.count)] = word_of(entry);
        self.count += 1;
    }

    /// Takes a letter.
    fn letter(&mut self, letter: Letter)
        requires { Ready self.old }
        ensures { (place : ℕ) → Takes self.old (Plain letter) place self.new }
    {
        let position = self.count;
        self.lay(PatternUnit::Plain(letter), None);
        self.front = None;
        self.start = position;
        self.last = Last::Operand;
    }

    /// Takes a `(` at a place.
    fn open_group(&mut self, place: usize)
        requires { (Ready self.old) × (self.old.depth ≤ most_groups) }
        ensures { Takes self.old Open place self.new }
    {
        let position = self.count;
        self.lay(PatternUnit::Open, None);
        self.groups[self.depth] = Group {
            opened: position,
            bar: None,
            place,
        };
        self.depth += 1;
        self.front = Some(position);
        self.start = position;
        self.last = Last::Start;
    }

    /// Takes a `)`.
    fn close_group(&mut self)
        requires { Ready self.old }
        ensures { (place : ℕ) → Takes self.old Close place self.new }
    {
        let position = self.count;
        let closed = self.groups[self.depth - 1];
        self.lay(PatternUnit::Close, closed.bar);
        self.depth -= 1;
        self.front = Some(position);
        self.start = closed.opened;
        self.last = Last::Operand;
    }

    /// Takes a `|`.
    fn bar(&mut self)
        requires { Ready self.old }
        ensures { (place : ℕ) → Takes self.old Bar place self.new }
    {
        let position = self.count;
        let group = self.groups[self.depth - 1];
        self.lay(PatternUnit::Bar, group.bar);
        self.groups[self.depth - 1].bar = Some(position);
        self.front = Some(group.opened);
        self.start = position;
        self.last = Last::Start;
    }

    /// Takes a repeat sign behind its operand.
    fn repeat(&mut self, sign: Sign)
        requires { (Ready self.old) × (self.old.last ≡ Last.Operand) }
        ensures { (place : ℕ) → Takes self.old (Repeat sign) place self.new }
    {
        let position = self.count;
        let start = self.start;
        self.lay(PatternUnit::Repeat(sign), skipped_from(sign, start));
        if leads_back(sign) {
            self.words[usize::from(start)] = with_last(self.words[usize::from(start)], position);
        }
        self.front = Some(position);
        self.last = Last::Sign;
    }

    /// Takes a unit, or says why it may not stand there.
    fn take(&mut self, placed: Placed) -> Result<(), Fault>
        requires { Ready self.old }
        ensures { (us : List Written) (os : List ℕ) (x : Before) → Stands self.old us os x → Answers placed us os x result self.new }
    {
        let place = placed.place;
        match placed.unit {
            PatternUnit::Plain(letter) => self.letter(letter),
            PatternUnit::Open if self.depth > MOST_GROUPS => return Err(Fault::at(
                Stop::TooDeep,
                place,
            )),
            PatternUnit::Open => self.open_group(place),
            PatternUnit::Bar => self.bar(),
            PatternUnit::Close if self.depth <= 1 => return Err(Fault::at(
                Stop::NothingOpen,
                place,
            )),
            PatternUnit::Close => self.close_group(),
            PatternUnit::Repeat(sign) => match self.last {
                Last::Start => return Err(Fault::at(Stop::NoOperand, place)),
                Last::Sign => return Err(Fault::at(Stop::SignAfterSign, place)),
                Last::Operand => self.repeat(sign),
            },
        }
        Ok(())
    }

    /// The place of the innermost `(` whose group is still open.
    fn open_place(&self) -> Option<usize>
        requires { (bytes : List ℕ) × ReadTo bytes self.now }
        ensures { MatchOption result (self.now.depth ≡ 1) (λ p. (1 < self.now.depth) × (p ≡ (OpenedLast self.now).place)) }
    {
        (self.depth > 1).then_some(self.groups[self.depth - 1].place)
    }

    /// Adds the CLOSE and the END: the rule of a pattern whose units the builder has taken.
    fn finish(mut self) -> Rule
        requires { ((bytes : List ℕ) × ReadTo bytes self) × (self.depth ≡ 1) }
        ensures { (bytes : List ℕ) → ReadTo bytes self → IsRuleOf bytes result }
    {
        let position = self.count;
        let whole = self.groups[self.depth - 1];
        self.lay(PatternUnit::Close, whole.bar);
        let end = Entry {
            kind: Kind::End,
            byte: 0,
            first: Some(position),
            second: None,
        };
        self.words[usize::from(self.count)] = word_of(end);
        Rule {
            words: self.words,
            last: self.count,
        }
    }
}

/// Reads the units of a pattern, from the left.
fn read_units(pattern: &[u8]) -> Result<Builder, Fault>
    ensures { MatchResult result (λ b. ReadTo pattern.now b) (λ f. Faulty pattern.now (stop_number f.stop) f.place) }
{
    let mut reader = Reader::new(pattern);
    let mut builder = Builder::new();
    while let Some(placed) = builder.next_unit(&mut reader)? {
        builder.take(placed)?;
    }
    Ok(builder)
}

/// The rule of the empty pattern.
pub fn empty_rule() -> Rule
    ensures { IsRuleOf [] result }
{
    let builder = Builder::new();
    builder.finish()
}

/// Reads a pattern: its rule, or its one fault.
pub fn read(pattern: &[u8]) -> Result<Rule, Fault>
    ensures answers { MatchResult result (λ rule. IsRuleOf pattern.now rule) (λ f. Faulty pattern.now (stop_number f.stop) f.place) }
    ensures exactly { MatchResult result (λ _. NoFault pattern.now) (λ f. OnlyFault pattern.now (stop_number f.stop) f.place) }
{
    let builder = read_units(pattern)?;
    match builder.open_place() {
        Some(place) => Err(Fault::at(Stop::LeftOpen, place)),
        None => Ok(builder.finish()),
    }
}
