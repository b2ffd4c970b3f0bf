//! Accesses made on a board in their order, and what they leave in the slices that the board was lent.

#![tactic(auto)]

ghost use Rattle.drive.specs.Drives.{Driven, Touches, counted, left_in, rowed, traced};
ghost use Rattle.std.specs.Prelude.{◌≡◌, ◌++◌, length, drop};

use board::{Board, Counting, Row, Trace};
use mark::Mark;
use stops::Stop;

/// An access to a cell.
#[derive(Clone, Copy, Debug, PartialEq, Eq)]
pub enum Access<M> {
    /// Reads the mark of a cell.
    Read(u64),
    /// Puts a mark into a cell.
    Write(u64, M),
}

/// Makes one access. A read answers the mark of the cell, a write the mark written.
pub fn touch<B: Board>(board: &mut B, access: Access<B::M>) -> Result<B::M, Stop>
    ensures kept { B.keeps.same board.old board.new }
    ensures done { Touches B.make (B.cells board.old) (B.meter board.old) access (B.cells board.new) (B.meter board.new) result }
{
    match access {
        Access::Read(cell) => board.read(cell),
        Access::Write(cell, mark) => {
            board.write(cell, mark)?;
            Ok(mark)
        }
    }
}

/// Makes accesses in their order. A refused one changes nothing and is passed over.
pub fn drive<B: Board>(board: &mut B, accesses: &[Access<B::M>])
    ensures { Driven B.Board board.old board.new accesses.now }
{
    for access in accesses {
        let _ = touch(board, *access);
    }
}

/// Makes accesses on a board, and answers its last reading.
fn last_reading<B: Board>(board: &mut B, accesses: &[Access<B::M>]) -> u64
    ensures driven { Driven B.Board board.old board.new accesses.now }
    ensures reading { result ≡ B.make.shows (length (B.cells board.new)) (B.meter board.new) }
{
    drive(board, accesses);
    board.reading()
}

/// Makes accesses on a new counting board over the marks, and answers its last reading.
pub fn drive_counting<M: Mark>(marks: &mut [M], accesses: &[Access<M>]) -> u64
    ensures marks { marks.new ≡ left_in marks.old (counted marks.old accesses.now) }
    ensures reading { result ≡ (counted marks.old accesses.now).meter }
{
    let mut board = Counting::new(marks);
    last_reading(&mut board, accesses)
}

/// Makes accesses on a new row board over the marks, and answers its last reading.
pub fn drive_row<M: Mark>(marks: &mut [M], accesses: &[Access<M>]) -> u64
    ensures marks { marks.new ≡ left_in marks.old (rowed marks.old accesses.now) }
    ensures reading { result ≡ (rowed marks.old accesses.now).meter.opened }
{
    let mut board = Row::new(marks);
    last_reading(&mut board, accesses)
}

/// Makes accesses on a new trace board over the marks and the words, and answers its last reading.
pub fn drive_trace<M: Mark>(marks: &mut [M], words: &mut [u32], accesses: &[Access<M>]) -> u64
    ensures marks { marks.new ≡ left_in marks.old (traced marks.old (length words.old) accesses.now) }
    ensures words { words.new ≡ (traced marks.old (length words.old) accesses.now).meter.written ++ drop result words.old }
    ensures reading { result ≡ length (traced marks.old (length words.old) accesses.now).meter.written }
{
    let mut board = Trace::new(marks, words);
    last_reading(&mut board, accesses)
}
