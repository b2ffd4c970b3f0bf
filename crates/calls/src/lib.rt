//! The screen: a board, a rule, and the frame that is open under it. Its six calls test a frame's bytes against the rule's pattern
//! one by one, and touch the board the same way whatever the bytes are.

#![tactic(auto)]

mod call;
mod frame;
mod show;

ghost use Rattle.std.specs.Prelude.{◌≡◌, ◌≤◌, length, None};
ghost use Rattle.board.specs.Lent.{SameLoan};
ghost use Rattle.conduct.specs.Calls.{number, to_begin, to_drop, to_feed, to_finish, to_load, to_meter, verdict};
ghost use Rattle.mark.specs.Limits.{most_bytes};
ghost use Rattle.screen.specs.Schedules.{frame_touches};
ghost use Rattle.calls.specs.Sound.{Conducts, Leads, SoundScreen, Takes};
ghost use Rattle.calls.specs.Told.{Unopened, order, said, said_at, said_number, said_verdict};
ghost use Rattle.calls.specs.declared.frame.State.TheVariants.{Open, Ready};

use board::Board;
pub use call::{Answer, Call, Refusal};
pub use frame::{OpenFrame, State};
use mark::MOST_BYTES;
use rule::{Rule, empty_rule, read};
use screen::{begin_cells, feed_cells, finish_cells, wipe_cells};
use stops::Stop;
use syntax::Fault;

/// A load while a frame is open is refused at the pattern's first place.
const LOAD_WHILE_OPEN: Fault = Fault {
    stop: Stop::LoadWhileOpen,
    place: 0,
};

/// The touches of a finished frame of `length` bytes under a rule that ends at `last`.
fn frame_touches(last: u16, length: u64) -> u64
    requires { length ≤ most_bytes }
    ensures { result ≡ frame_touches last length }
{
    let last = u64::from(last);
    10 * (last * length) + 10 * last + 9 * length + 11
}

/// A screen over a board that it is lent.
#[derive(Drop)]
pub struct Screen<'b, B> {
    board: &'b mut B,
    /// The rule of the last accepted load. Until there is one the state is empty, and no call looks at it.
    rule: Rule,
    state: State,
}

/// A begin with a rule and no frame: answers the touches of the whole frame, and the frame.
fn begin_ready<B: Board>(
    board: &mut B,
    rule: &Rule,
    renter: u8,
    length: u64,
) -> Result<(u64, OpenFrame), Stop>
    ensures { Leads B.Board B.M.Mark.kind board.old board.new (Ready, rule.now) (λ r. (Open r.1, rule.now)) (to_begin renter length) (λ r. number r.0) result }
{
    if length > u64::from(MOST_BYTES) {
        return Err(Stop::FrameTooLong);
    }
    let all = frame_touches(rule.last(), length);
    if board.allowance() < all {
        return Err(Stop::AllowanceTooSmall);
    }
    let touches = begin_cells(board, rule)?;
    let frame = OpenFrame {
        renter,
        length,
        fed: 0,
        touches,
    };
    Ok((all, frame))
}

/// A feed while a frame is open.
fn feed_open<B: Board>(
    board: &mut B,
    rule: &Rule,
    frame: &mut OpenFrame,
    renter: u8,
    byte: u8,
) -> Result<u64, Stop>
    ensures { Takes B.Board B.M.Mark.kind board.old board.new (Open frame.old, rule.now) (Open frame.new, rule.now) (to_feed renter byte) (said_number result) }
{
    frame.check_renter(renter)?;
    if frame.fed >= frame.length {
        return Err(Stop::AllFed);
    }
    let fed = frame.fed + 1;
    let more = feed_cells(board, rule, byte, fed)?;
    frame.fed = fed;
    frame.touches = frame.touches.wrapping_add(more);
    Ok(frame.length - fed)
}

/// A finish while a frame is open.
fn finish_open<B: Board>(
    board: &mut B,
    rule: &Rule,
    frame: OpenFrame,
    renter: u8,
) -> Result<(B::M, u64), Stop>
    ensures { Leads B.Board B.M.Mark.kind board.old board.new (Open frame, rule.now) (λ _. (Ready, rule.now)) (to_finish renter) (λ r. verdict r.0 r.1) result }
{
    frame.check_renter(renter)?;
    if frame.fed < frame.length {
        return Err(Stop::BytesMissing);
    }
    let (mark, more) = finish_cells(board, rule)?;
    Ok((mark, frame.touches.wrapping_add(more)))
}

/// A drop while a frame is open.
fn drop_open<B: Board>(
    board: &mut B,
    rule: &Rule,
    frame: OpenFrame,
    renter: u8,
) -> Result<u64, Stop>
    ensures { Leads B.Board B.M.Mark.kind board.old board.new (Open frame, rule.now) (λ _. (Ready, rule.now)) (to_drop renter) number result }
{
    frame.check_renter(renter)?;
    let more = wipe_cells(board, rule)?;
    Ok(frame.touches.wrapping_add(more))
}

impl<'b, B: Board> Screen<'b, B> {
    /// A screen that is empty.
    pub fn new(board: &'b mut B) -> Screen<'b, B>
        ensures lent { SameLoan result.board board.entry }
        ensures sound { SoundScreen B.Board B.M.Mark.kind None None result }
    {
        Screen {
            board,
            rule: empty_rule(),
            state: State::Empty,
        }
    }

    /// A load while no frame is open.
    fn load_unopened(&mut self, pattern: &[u8]) -> Result<u16, Fault>
        requires { Unopened self.old.state }
        ensures { Conducts B.Board B.M.Mark.kind self.old self.new (to_load pattern.now) (said_at result) }
    {
        let rule = read(pattern)?;
        let last = rule.last();
        if u64::from(last) >= self.board.size() {
            return Err(Fault::at(Stop::TooWide, pattern.len()));
        }
        self.rule = rule;
        self.state = State::Ready;
        Ok(last)
    }

    /// Reads a pattern and makes it the rule; answers the number of its last position.
    pub fn load(&mut self, pattern: &[u8]) -> Result<u16, Fault>
        ensures { Conducts B.Board B.M.Mark.kind self.old self.new (to_load pattern.now) (said_at result) }
    {
        match self.state {
            State::Empty | State::Ready => self.load_unopened(pattern),
            State::Open(_) => Err(LOAD_WHILE_OPEN),
        }
    }

    /// Opens a frame of a renter, of so many bytes; answers the touches that it will have made when it is finished.
    pub fn begin(&mut self, renter: u8, length: u64) -> Result<u64, Stop>
        ensures { Conducts B.Board B.M.Mark.kind self.old self.new (to_begin renter length) (said_number result) }
    {
        match self.state {
            State::Empty => Err(Stop::NoRule),
            State::Ready => {
                let (touches, frame) = begin_ready(self.board, &self.rule, renter, length)?;
                self.state.open(frame);
                Ok(touches)
            }
            State::Open(_) => Err(Stop::FrameOpen),
        }
    }

    /// Feeds the next byte of a renter's frame; answers the bytes still to come.
    pub fn feed(&mut self, renter: u8, byte: u8) -> Result<u64, Stop>
        ensures { Conducts B.Board B.M.Mark.kind self.old self.new (to_feed renter byte) (said_number result) }
    {
        let State::Open(frame) = &mut self.state else {
            return Err(Stop::NoFrame);
        };
        feed_open(self.board, &self.rule, frame, renter, byte)
    }

    /// Ends a renter's frame; answers its verdict, and the touches made for it.
    pub fn finish(&mut self, renter: u8) -> Result<(B::M, u64), Stop>
        ensures { Conducts B.Board B.M.Mark.kind self.old self.new (to_finish renter) (said_verdict result) }
    {
        let State::Open(frame) = self.state else {
            return Err(Stop::NoFrame);
        };
        let verdict = finish_open(self.board, &self.rule, frame, renter)?;
        self.state.close();
        Ok(verdict)
    }

    /// Ends a renter's frame unread; answers the touches made for it.
    pub fn drop(&mut self, renter: u8) -> Result<u64, Stop>
        ensures { Conducts B.Board B.M.Mark.kind self.old self.new (to_drop renter) (said_number result) }
    {
        let State::Open(frame) = self.state else {
            return Err(Stop::NoFrame);
        };
        let made = drop_open(self.board, &self.rule, frame, renter)?;
        self.state.close();
        Ok(made)
    }

    /// What the board's meter shows.
    pub fn meter(&self) -> u64
        ensures { result ≡ B.make.shows (length (B.cells self.now.board.now)) (B.meter self.now.board.now) }
    {
        self.board.reading()
    }

    /// A call as a value. What it does follows from the screen's state and the call together.
    pub fn call(&mut self, call: Call<'_>) -> Result<Answer<B::M>, Refusal>
        ensures { Conducts B.Board B.M.Mark.kind self.old self.new (order call.entry) (said result) }
    {
        match (&mut self.state, call) {
            (_, Call::Meter) => Ok(Answer::Number(self.board.reading())),
            (State::Empty, Call::Load(pattern)) => {
                Ok(Answer::Number(self.load_unopened(pattern)?.into()))
            }
            (State::Empty, Call::Begin { .. }) => Err(Stop::NoRule.into()),
            (State::Empty, Call::Feed { .. }) => Err(Stop::NoFrame.into()),
            (State::Empty, Call::Finish { .. }) => Err(Stop::NoFrame.into()),
            (State::Empty, Call::Drop { .. }) => Err(Stop::NoFrame.into()),
            (State::Ready, Call::Load(pattern)) => {
                Ok(Answer::Number(self.load_unopened(pattern)?.into()))
            }
            (State::Ready, Call::Begin { renter, length }) => {
                let (all, frame) = begin_ready(self.board, &self.rule, renter, length)?;
                self.state.open(frame);
                Ok(Answer::Number(all))
            }
            (State::Ready, Call::Feed { .. }) => Err(Stop::NoFrame.into()),
            (State::Ready, Call::Finish { .. }) => Err(Stop::NoFrame.into()),
            (State::Ready, Call::Drop { .. }) => Err(Stop::NoFrame.into()),
            (State::Open(_), Call::Load(_)) => Err(LOAD_WHILE_OPEN.into()),
            (State::Open(_), Call::Begin { .. }) => Err(Stop::FrameOpen.into()),
            (State::Open(frame), Call::Feed { renter, byte }) => {
                Ok(Answer::Number(feed_open(self.board, &self.rule, frame, renter, byte)?))
            }
            (State::Open(frame), Call::Finish { renter }) => {
                let (mark, touches) = finish_open(self.board, &self.rule, *frame, renter)?;
                self.state.close();
                Ok(Answer::Verdict(mark, touches))
            }
            (State::Open(frame), Call::Drop { renter }) => {
                let touches = drop_open(self.board, &self.rule, *frame, renter)?;
                self.state.close();
                Ok(Answer::Number(touches))
            }
        }
    }
}
