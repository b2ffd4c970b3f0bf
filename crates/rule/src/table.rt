//! A rule: the words of its table, in memory of its own.

ghost use Rattle.std.specs.Prelude.{◌≡◌, ◌+◌, ◌<◌, ◌≤◌, MatchOption, slice_index};
ghost use Rattle.language.specs.Limits.{most_units};
ghost use Rattle.rule.specs.Tables.{Ruled};
ghost use Rattle.rule.specs.Words.{Says, first_of, second_of, takes_at};

use crate::MOST_UNITS;
use crate::word::{Entry, predecessors, takes};

/// The positions of a pattern of the most units: the added OPEN, the units, the added CLOSE and the END.
pub const POSITIONS: usize = MOST_UNITS as usize + 3;

/// A rule: a word for each position up to the last one. The words are the table of a pattern.
#[derive(Drop)]
pub struct Rule {
    pub(crate) words: [u32; POSITIONS],
    pub(crate) last: u16,
    pub ghost ruled: { Ruled last words },
    pub ghost fits: { last < most_units + 3 },
}

impl Rule {
    ghost use Rattle.rule.specs.Loading.{NoWord};

    /// The number of the last position, the END.
    pub fn last(&self) -> u16
        ensures { result ≡ self.now.last }
    {
        self.last
    }

    /// The word of a position; none past the last one.
    pub fn word(&self, position: u16) -> Option<u32>
        ensures { MatchOption result (NoWord self.now position) (λ w. (position ≤ self.now.last) × (w ≡ slice_index self.now.words position)) }
    {
        (position <= self.last).then(|| self.words[usize::from(position)])
    }

    /// The word of a position taken apart; none past the last one.
    pub fn entry(&self, position: u16) -> Option<Entry>
        ensures { MatchOption result (NoWord self.now position) (λ e. (position ≤ self.now.last) × Says (slice_index self.now.words position) e.kind e.byte e.first e.second) }
    {
        Entry::try_from(self.word(position)?).ok()
    }

    /// The positions that link to a position, the smaller first; none past the memory.
    pub fn predecessors(&self, position: u16) -> (Option<u16>, Option<u16>)
        ensures { (result.0 ≡ first_of self.now.words position) × (result.1 ≡ second_of self.now.words position) }
    {
        self.words
            .get(usize::from(position))
            .map_or((None, None), |word| predecessors(*word))
    }

    /// Whether the word of a position takes a byte: a BYTE its own, an ANY each.
    pub fn takes(&self, position: u16, byte: u8) -> bool
        ensures { result ≡ takes_at self.now.words byte position }
    {
        self.words
            .get(usize::from(position))
            .is_some_and(|word| takes(*word, byte))
    }
}
