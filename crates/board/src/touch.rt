//! Touches, and the words that stand for them.

ghost use Rattle.board.specs.Boards.{cell_of};
ghost use Rattle.board.specs.Makes.{word_of};
ghost use Rattle.board.specs.Meters.{touch_of};
ghost use Rattle.std.specs.Prelude.{◌≡◌, ◌%◌, ◌^◌};

/// The lowest so many bits of a word are the cell.
const CELL_BITS: u32 = 30;
/// What the bits above say in the word of a write; in the word of a read they are 0.
const WRITTEN: u32 = 1 << CELL_BITS;

/// An accepted access, by its cell.
#[derive(Clone, Copy, Debug, PartialEq, Eq)]
pub enum Touch {
    /// The mark of the cell was read.
    Read(u64),
    /// A mark was put into the cell.
    Write(u64),
}

impl Touch {
    /// The cell that is touched.
    pub(crate) fn cell(self) -> u64
        ensures { result ≡ cell_of (touch_of self) }
    {
        match self {
            Touch::Read(cell) | Touch::Write(cell) => cell,
        }
    }
}

/// The bits of a cell that a word holds.
fn cell_bits(cell: u64) -> u32
    ensures { result ≡ cell % 2 ^ 30 }
{
    (cell % (1 << CELL_BITS)) as u32
}

impl From<Touch> for u32 {
    ghost from_gives = { λ touch word. word ≡ word_of (touch_of touch) };

    fn from(touch: Touch) -> u32 {
        match touch {
            Touch::Read(cell) => cell_bits(cell),
            Touch::Write(cell) => WRITTEN + cell_bits(cell),
        }
    }
}
