//! The trace board.

ghost use Rattle.board.specs.Lent.{SameLoan};
ghost use Rattle.board.specs.Makes.{Words, tracing};
ghost use Rattle.board.specs.Traced.{words_kept};
ghost use Rattle.std.specs.Prelude.{◌≡◌, ◌-◌, length, take};

use crate::{Meter, Metered, Touch};
use mark::Mark;
use stops::Stop;

/// Writes each touch as a word into a lent slice of words. It allows as many touches as there are words left.
#[derive(Drop)]
pub struct WordMeter {
    used: usize,
}

/// A board over a lent slice of marks that writes its touches into a lent slice of words.
pub type Trace<'a, M> = Metered<'a, M, &'a mut [u32], WordMeter>;

impl<'a, M: Mark> Trace<'a, M> {
    /// A board that has written no word.
    pub fn new(marks: &'a mut [M], words: &'a mut [u32]) -> Trace<'a, M>
        ensures marks { SameLoan result.marks marks.entry }
        ensures words { SameLoan result.memory words.entry }
        ensures used { result.meter.used ≡ 0 }
    {
        Metered {
            marks,
            memory: words,
            meter: WordMeter { used: 0 },
        }
    }
}

impl<'a> Meter<&'a mut [u32]> for WordMeter {
    ghost Gauge = { Words };

    ghost make = { tracing };

    ghost value = { λ words m. record { written = take m.used words.now; free = length words.now - m.used } };

    ghost keeps = { words_kept };

    fn allowance(&self, words: &&'a mut [u32]) -> u64 {
        words.len().saturating_sub(self.used) as u64
    }

    fn reading(&self, words: &&'a mut [u32]) -> u64 {
        self.used.min(words.len()) as u64
    }

    fn count(&mut self, words: &mut &'a mut [u32], touch: Touch) -> Result<(), Stop> {
        if self.used >= words.len() {
            return Err(Stop::NoAllowance);
        }
        words[self.used] = touch.into();
        self.used += 1;
        Ok(())
    }
}
