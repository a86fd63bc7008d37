// The run of two logs from both first records: a state by value, and a step that reads the record after the one that goes out (document 02, W-201).
ghost use Rattle.std.specs.Prelude.{◌≡◌, ◌<◌};
ghost use Rattle.rules.specs.Merge.{choose, mod_day, in_range};
ghost use Rattle.merging.specs.Run.{log_is, digit_of, time_of, side_of, which_is, which_by, with_head, moved_of, move_of, begun_of, begin_of};

use crate::heads::{Standing, behind, stand};
use numbers::magnitude;
use recordings::check_recording;
use rules::{Fault, Refusal};
use walking::Cursor;

// Which of two logs.
#[derive(Clone, Copy, Debug, PartialEq, Eq)]
pub enum Log {
    A = 0,
    B = 1,
}

impl Log {
    // Its number, in C and in what many steps put out.
    pub fn number(self) -> u8
        ensures { result ≡ digit_of self }
    {
        self as u8
    }
}

// Of two, the log's.
pub fn pick<T: Copy>(log: Log, a: T, b: T) -> T
    ensures { result ≡ choose (log_is log) a b }
{
    match log {
        Log::A => a,
        Log::B => b,
    }
}

// Why there is no step.
#[derive(Clone, Copy, Debug, PartialEq, Eq)]
pub enum MergeRefusal {
    // A log is not accepted: its own refusal.
    OfLog { log: Log, refusal: Refusal },
    // An offset, or a place: OffsetRange or PlaceInside.
    Asked(Fault),
}

// ---- the offset

// From -46,080 to 46,080.
fn in_range(offset: i64) -> bool
    ensures { result ≡ in_range offset }
{
    let n = magnitude(offset);
    if offset < 0 {
        return n <= 46079;
    }
    n <= 46080
}

// The offset modulo a day.
fn turn_of(amount: i64) -> u64
    ensures { result ≡ mod_day amount }
{
    let n = magnitude(amount);
    if amount < 0 {
        return 11059199 - n % 11059200;
    }
    n % 11059200
}

// ---- which record goes first

// The record that a log comes to, and whether it is one.
#[derive(Clone, Copy)]
pub struct Side {
    pub head: Standing,
    pub there: bool,
}

impl Side {
    pub fn new(head: Standing, len: usize) -> Side
        ensures { result ≡ side_of len head }
    {
        Side {
            head,
            there: head.is_head(len),
        }
    }
}

// By whether each log has a record. A log at its end yields to the other; a record without a time goes at once, A's before B's; else by the times, B's moved
// on by the turn.
pub fn first_by(a: Side, b: Side, turn: u64) -> Option<Log>
    ensures { which_is result ≡ which_by turn a.there b.there (time_of a.head) (time_of b.head) }
{
    if !a.there {
        if !b.there {
            return None;
        }
        return Some(Log::B);
    }
    if !b.there {
        return Some(Log::A);
    }
    if !a.head.timed {
        return Some(Log::A);
    }
    if !b.head.timed {
        return Some(Log::B);
    }
    let gap = (b.head.time % 11059200 + turn % 11059200 + (11059200 - a.head.time % 11059200))
        % 11059200;
    if gap <= 5529600 {
        return Some(Log::A);
    }
    Some(Log::B)
}

// ---- the run

// The next record of each log, and the offset modulo a day.
#[derive(Clone, Copy)]
pub struct Merge {
    pub a: Standing,
    pub b: Standing,
    pub turn: u64,
}

// What comes out: its log, the walk of the log at the record, and how many bytes it has; and the state after it.
#[derive(Clone, Copy)]
pub struct Moved {
    pub log: Log,
    pub at: Cursor,
    pub size: usize,
    pub merge: Merge,
}

impl Merge {
    // With another record of one log.
    fn with(self, log: Log, head: Standing) -> Merge
        ensures { result ≡ with_head (log_is log) head self }
    {
        match log {
            Log::A => Merge { a: head, ..self },
            Log::B => Merge { b: head, ..self },
        }
    }

    // The next record of two logs, and the state after it; none where both are at their ends. Of any state: what comes out lies in its log.
    pub fn step(self, log_a: &[u8], log_b: &[u8]) -> Option<Moved>
        ensures { moved_of self result ≡ move_of log_a.now log_b.now self }
    {
        let log = first_by(
            Side::new(self.a, log_a.len()),
            Side::new(self.b, log_b.len()),
            self.turn,
        )?;
        let head = pick(log, self.a, self.b);
        let after = stand(pick(log, log_a, log_b), behind(head));
        Some(Moved {
            log,
            at: head.at,
            size: head.size,
            merge: self.with(log, after),
        })
    }
}

// How a run begins: with both logs at their first records. Both logs are checked, whole, once.
pub fn begin_merge(log_a: &[u8], log_b: &[u8], offset: i64) -> Result<Merge, MergeRefusal>
    ensures { begun_of result ≡ begin_of log_a.now log_b.now offset }
{
    if let Err(refusal) = check_recording(log_a) {
        return Err(MergeRefusal::OfLog {
            log: Log::A,
            refusal,
        });
    }
    if let Err(refusal) = check_recording(log_b) {
        return Err(MergeRefusal::OfLog {
            log: Log::B,
            refusal,
        });
    }
    if !in_range(offset) {
        return Err(MergeRefusal::Asked(Fault::OffsetRange));
    }
    Ok(Merge {
        a: stand(log_a, Cursor::start()),
        b: stand(log_b, Cursor::start()),
        turn: turn_of(offset),
    })
}
