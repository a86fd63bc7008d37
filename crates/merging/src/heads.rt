// The record that comes next in a log, with its time; and the search for a place (document 02, W-201). The log was checked before: a record is only
// measured.
ghost use Rattle.std.specs.Prelude.{◌≡◌, true, ◌+◌, ◌^◌, ◌≤◌, ◌<◌, length};
ghost use Rattle.rules.specs.Merge.{from_place};
ghost use Rattle.walking.specs.Walk.{begin};
ghost use Rattle.merging.specs.Heads.{in_log, end_cursor, end_at, cursor_at, stood_by, stood_at, stand_of, is_head, behind_of, heads_left, Found};

use measuring::{Measured, measure};
use walking::{Cursor, block_at};

// The record that comes next: the walk at it, whose place is its first byte, how many bytes it has, and its time where it counts as timed. At the
// recording's end the size is 0 and the place the recording's length.
#[derive(Clone, Copy)]
pub struct Standing {
    pub at: Cursor,
    pub size: usize,
    // Not one Option: a run goes through C and back as it is, the time of a record that is not timed too.
    pub timed: bool,
    pub time: u64,
}

impl Standing {
    // Whether it can be a record of a log of so many bytes, and is not the log's end. What a caller has changed is so kept within the log.
    pub fn is_head(self, len: usize) -> bool
        ensures { result ≡ is_head len self }
    {
        if !is_in_log(self.at, len) {
            return false;
        }
        if self.size == 0 {
            return false;
        }
        self.size <= self.at.end - self.at.place
    }
}

// The walk behind it.
pub fn behind(standing: Standing) -> Cursor
    requires { standing.at.place + standing.size < 2 ^ 63 }
    ensures { result ≡ behind_of standing }
{
    Cursor {
        place: standing.at.place + standing.size,
        ..standing.at
    }
}

// Where a walk stands at the log's end.
fn last(len: usize) -> Cursor
    ensures { result ≡ end_cursor len }
{
    Cursor {
        block: 0,
        place: len,
        end: len,
        category: 0,
    }
}

// The log's end.
fn ended(len: usize) -> Standing
    ensures { result ≡ end_at len }
{
    Standing {
        at: last(len),
        size: 0,
        timed: false,
        time: 0,
    }
}

// Whether a cursor stands in a block of a log of so many bytes, or at the log's end.
fn is_in_log(cursor: Cursor, len: usize) -> bool
    ensures { result ≡ in_log len cursor }
{
    if cursor.place < cursor.block {
        return false;
    }
    if cursor.end < cursor.place {
        return false;
    }
    cursor.end <= len
}

// Where the next record stands: at the cursor, or first in the next block; at the log's end where there is none.
fn cursor_at(recording: &[u8], cursor: Cursor) -> Cursor
    requires { cursor.end ≤ length recording.now }
    ensures { result ≡ cursor_at recording.now cursor }
{
    match block_at(recording, cursor) {
        Ok(at) => at,
        Err(_) => last(recording.len()),
    }
}

// The record that stands there, by what was measured.
fn stood(len: usize, at: Cursor, measured: Measured) -> Standing
    ensures { result ≡ stood_by len at measured }
{
    if measured.size == 0 {
        return ended(len);
    }
    Standing {
        at,
        size: measured.size,
        timed: measured.time.is_some(),
        time: measured.time.unwrap_or(0),
    }
}

// Compiled into both loops over records: a call would hand what was measured through memory.
#[inline(always)]
fn stood_at(recording: &[u8], at: Cursor) -> Standing
    requires { (at.place ≤ at.end) × (at.end ≤ length recording.now) }
    ensures { result ≡ stood_at recording.now at }
{
    let place = at.place;
    let end = at.end;
    stood(
        recording.len(),
        at,
        measure(at.category, &recording[place..end]),
    )
}

// The record that a walk comes to from a cursor; the log's end where there is none.
pub fn stand(recording: &[u8], cursor: Cursor) -> Standing
    ensures { result ≡ stand_of recording.now cursor }
{
    if !is_in_log(cursor, recording.len()) {
        return ended(recording.len());
    }
    stand_in(recording, cursor)
}

// The same from a cursor in the log: a loop over many records has it compiled in.
#[inline(always)]
pub fn stand_in(recording: &[u8], cursor: Cursor) -> Standing
    requires { in_log (length recording.now) cursor ≡ true }
    ensures { result ≡ stand_of recording.now cursor }
{
    let at = cursor_at(recording, cursor);
    stood_at(recording, at)
}

// The record that starts at a place, or the recording's end.
pub fn seek(recording: &[u8], place: usize) -> Option<Standing>
    ensures { Found recording.now result (from_place (length recording.now) place (heads_left recording.now begin)) }
{
    let mut at = stand(recording, Cursor::start());
    // Not a `for`: where a record starts is known only once the one before it is measured.
    while at.is_head(recording.len()) {
        if at.at.place == place {
            return Some(at);
        }
        let next = behind(at);
        at = stand(recording, next);
    }
    if place == recording.len() {
        return Some(at);
    }
    None
}
