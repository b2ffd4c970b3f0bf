//! The counting board.

ghost use Rattle.board.specs.Makes.{counting};
ghost use Rattle.board.specs.Meters.{nothing_lent};
ghost use Rattle.std.specs.Prelude.{◌≡◌, ℕ};

use crate::{Meter, Metered, Touch};
use stops::Stop;

/// Counts touches, modulo 2^64. It allows as many as one likes.
#[derive(Drop)]
pub struct TouchMeter {
    touches: u64,
}

/// A meter that has counted no touch.
impl Default for TouchMeter {
    ghost is_default = { λ m. m.touches ≡ 0 };

    fn default() -> TouchMeter {
        TouchMeter { touches: 0 }
    }
}

/// A board over a lent slice of marks that counts its touches.
pub type Counting<'a, M> = Metered<'a, M, (), TouchMeter>;

impl Meter<()> for TouchMeter {
    ghost Gauge = { ℕ };

    ghost make = { counting };

    ghost value = { λ memory m. m.touches };

    ghost keeps = { nothing_lent };

    fn allowance(&self, _memory: &()) -> u64 {
        u64::MAX
    }

    fn reading(&self, _memory: &()) -> u64 {
        self.touches
    }

    fn count(&mut self, _memory: &mut (), _touch: Touch) -> Result<(), Stop> {
        self.touches = self.touches.wrapping_add(1);
        Ok(())
    }
}
