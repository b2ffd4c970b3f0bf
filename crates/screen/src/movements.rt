//! The four movements of a frame, and the calls that make them, for every board and every kind of mark. A board may cut a movement
//! short and leave it half done, so nobody but a call makes one, and only where the board has enough for all of it.

ghost use Rattle.std.specs.Prelude.{◌≡◌, ◌^◌, ◌<◌, if◌then◌else◌};
ghost use Rattle.method.specs.Cells.{first_mark, source};
ghost use Rattle.screen.specs.ByRule.{beginning_of, begun_by, fed_by, feeding_of, finishing_of, placed_by, placed_with, placing_of, scanned_by, scanning_of, settled_by, settling_of, stepped_by, stepping_of, wiped_by, wiping_of};
ghost use Rattle.screen.specs.Moving.{Admits, Call, ReadingCall};
ghost use Rattle.screen.specs.Movements.{ReadOf, RuledMovement, Starts, WriteOf};

use board::Board;
use mark::Mark;
use rule::Rule;
use stops::Stop;

/// The first mark of a cell: `first` in cell 0, nothing in the others.
fn first_mark<M: Mark>(first: M, cell: u64) -> M
    ensures { result ≡ first_mark first M.Mark.kind.nothing cell }
{
    if cell == 0 { first } else { M::nothing() }
}

/// The cell that a scan at `position` reads for a predecessor: its own if it is absent.
fn source(predecessor: Option<u16>, position: u16) -> u64
    ensures { result ≡ source predecessor position }
{
    u64::from(predecessor.unwrap_or(position))
}

/// What comes over a position: the mark there if the position takes the byte, else nothing.
fn across<M: Mark>(mark: M, taken: bool) -> M
    ensures { result ≡ (if taken then mark else M.Mark.kind.nothing) }
{
    if taken { mark } else { M::nothing() }
}

/// The mark that cell 0 gets once so many bytes are fed.
fn fresh<M: Mark>(fed: u64) -> M
    ensures { result ≡ M.Mark.kind.seed fed }
{
    M::seed(fed)
}

/// So many scans bring every mark to wherever links lead from it.
const SCANS: u64 = 2;

/// What moves a frame's marks: a board, the rule that they move by, and the touches made so far. Its methods are inlined into the
/// calls, and those that scan are inlined no further, so that their loops need not go through it at each touch.
#[derive(Drop)]
struct Mover<'b, B> {
    board: &'b mut B,
    rule: &'b Rule,
    touches: u64,
}

impl<'b, B: Board> Mover<'b, B> {
    /// A mover on the board that it is lent, which has made no touch.
    #[inline(always)]
    fn new(board: &'b mut B, rule: &'b Rule) -> Mover<'b, B>
        ensures { Starts board.entry rule.now result }
    {
        Mover {
            board,
            rule,
            touches: 0,
        }
    }

    /// The last cell of a frame.
    #[inline(always)]
    fn last(&self) -> u64
        ensures { result ≡ self.now.rule.now.last }
    {
        u64::from(self.rule.last())
    }

    /// Whether the board has a cell for each position of the rule, and allows so many touches: else stop 18 or 19.
    #[inline(always)]
    fn admit(&self, touches: u64) -> Result<(), Stop>
        ensures { Admits B.Board self.now.board.now self.now.rule.now touches result }
    {
        if self.last() >= self.board.size() {
            return Err(Stop::NoCell);
        }
        if self.board.allowance() < touches {
            return Err(Stop::NoAllowance);
        }
        Ok(())
    }

    /// Reads a cell, and counts the touch.
    #[inline(always)]
    fn read(&mut self, cell: u64) -> Result<B::M, Stop>
        requires { self.old.touches < 2 ^ 32 }
        ensures { ReadOf B.Board self.old cell self.new result }
    {
        let mark = self.board.read(cell)?;
        self.touches += 1;
        Ok(mark)
    }

    /// Writes a cell, and counts the touch.
    #[inline(always)]
    fn write(&mut self, cell: u64, mark: B::M) -> Result<(), Stop>
        requires { self.old.touches < 2 ^ 32 }
        ensures { WriteOf B.Board self.old cell mark self.new result }
    {
        self.board.write(cell, mark)?;
        self.touches += 1;
        Ok(())
    }

    /// Reads the cell of a predecessor of `position`, and counts the touch.
    #[inline(always)]
    fn read_source(&mut self, predecessor: Option<u16>, position: u16) -> Result<B::M, Stop>
        requires { self.old.touches < 2 ^ 32 }
        ensures { ReadOf B.Board self.old (source predecessor position) self.new result }
    {
        self.read(source(predecessor, position))
    }

    /// Writes `first` to cell 0 and nothing to the other cells up to the last, in that order.
    #[inline(always)]
    fn fill(&mut self, first: B::M) -> Result<(), Stop>
        requires { self.old.touches < 2 ^ 16 }
        ensures { RuledMovement B.Board self.old placing_of (placed_with B.M.Mark.kind first) self.new result }
    {
        for cell in 0..=self.last() {
            self.write(cell, first_mark(first, cell))?;
        }
        Ok(())
    }

    /// Places the first marks of a frame: seed(0) in cell 0, nothing in the others.
    #[inline(always)]
    fn place(&mut self) -> Result<(), Stop>
        requires { self.old.touches < 2 ^ 16 }
        ensures { RuledMovement B.Board self.old placing_of (placed_by B.M.Mark.kind) self.new result }
    {
        self.fill(B::M::seed(0))
    }

    /// Wipes a frame's cells: writes nothing to each.
    #[inline(always)]
    fn wipe(&mut self) -> Result<(), Stop>
        requires { self.old.touches < 2 ^ 16 }
        ensures { RuledMovement B.Board self.old wiping_of (wiped_by B.M.Mark.kind) self.new result }
    {
        self.fill(B::M::nothing())
    }

    /// Joins to each cell from 0 to the last, in that order, its predecessors' marks.
    #[inline(always)]
    fn scan(&mut self) -> Result<(), Stop>
        requires { self.old.touches < 2 ^ 16 }
        ensures { RuledMovement B.Board self.old scanning_of (scanned_by B.M.Mark.kind) self.new result }
    {
        let rule = self.rule;
        for j in 0..=rule.last() {
            let (first, second) = rule.predecessors(j);
            let own = self.read(u64::from(j))?;
            let before = self.read_source(first, j)?;
            let other = self.read_source(second, j)?;
            self.write(u64::from(j), own.join(before).join(other))?;
        }
        Ok(())
    }

    /// Scans the cells twice, one scan after the other.
    #[inline(always)]
    fn settle(&mut self) -> Result<(), Stop>
        requires { self.old.touches < 2 ^ 12 }
        ensures { RuledMovement B.Board self.old settling_of (settled_by B.M.Mark.kind) self.new result }
    {
        for _ in 0..SCANS {
            self.scan()?;
        }
        Ok(())
    }

    /// Carries the marks over a byte, from the last cell down to cell 1, and puts seed(bytes fed so far) into cell 0.
    #[inline(always)]
    fn step(&mut self, byte: u8, fed: u64) -> Result<(), Stop>
        requires { self.old.touches < 2 ^ 16 }
        ensures { RuledMovement B.Board self.old stepping_of (stepped_by B.M.Mark.kind byte fed) self.new result }
    {
        let rule = self.rule;
        for j in (0..rule.last()).rev() {
            let mark = self.read(u64::from(j))?;
            self.write(u64::from(j) + 1, across(mark, rule.takes(j, byte)))?;
        }
        self.write(0, fresh(fed))
    }
}

/// Places the first marks of a frame and scans twice; answers the touches made.
#[inline(never)]
pub fn begin_cells<B: Board>(board: &mut B, rule: &Rule) -> Result<u64, Stop>
    ensures { Call B.Board board.old rule.now beginning_of (begun_by B.M.Mark.kind) board.new result }
{
    let mut mover = Mover::new(board, rule);
    mover.admit(9 * mover.last() + 9)?;
    mover.place()?;
    mover.settle()?;
    Ok(mover.touches)
}

/// Carries the marks over a byte, the frame's `fed`-th, and scans twice; answers the touches made.
#[inline(never)]
pub fn feed_cells<B: Board>(board: &mut B, rule: &Rule, byte: u8, fed: u64) -> Result<u64, Stop>
    ensures { Call B.Board board.old rule.now feeding_of (fed_by B.M.Mark.kind byte fed) board.new result }
{
    let mut mover = Mover::new(board, rule);
    mover.admit(10 * mover.last() + 9)?;
    mover.step(byte, fed)?;
    mover.settle()?;
    Ok(mover.touches)
}

/// Wipes a frame's cells; answers the touches made.
pub fn wipe_cells<B: Board>(board: &mut B, rule: &Rule) -> Result<u64, Stop>
    ensures { Call B.Board board.old rule.now wiping_of (wiped_by B.M.Mark.kind) board.new result }
{
    let mut mover = Mover::new(board, rule);
    mover.admit(mover.last() + 1)?;
    mover.wipe()?;
    Ok(mover.touches)
}

/// Reads the mark at the last position, and wipes a frame's cells; answers the mark and the touches made.
pub fn finish_cells<B: Board>(board: &mut B, rule: &Rule) -> Result<(B::M, u64), Stop>
    ensures { ReadingCall B.Board board.old rule.now finishing_of (wiped_by B.M.Mark.kind) board.new result }
{
    let mut mover = Mover::new(board, rule);
    mover.admit(mover.last() + 2)?;
    let mark = mover.read(mover.last())?;
    mover.wipe()?;
    Ok((mark, mover.touches))
}
