// asterix_check: a recording of ASTERIX blocks on standard input, of any length; one line on standard output, `accepted B blocks R records` or
// `refused N at P`, with P counted from the recording's start (document 01, "What the reader and writer cover"). Memory is one buffer. Where a read
// fails there is no verdict, and a line on standard error says so.
#![tactic(auto)]

ghost use Rattle.std.specs.Prelude.{◌≡◌, ◌≤◌, length};
ghost use Rattle.rules.specs.Entry.{over};
ghost use Rattle.recordings.specs.Answers.{whole_of, kept_state_of};
ghost use Rattle.text.specs.Page.{page, puts};
ghost use Rattle.asterix_check.specs.Whole.{whole_in};
ghost use Rattle.asterix_check.specs.Turn.{turn_of, turned, Came, Wanted};
ghost use Rattle.asterix_check.specs.Verdict.{sentence, verdict_text};

use input::Filled;
use recordings::{Counts, KeptState, Refused};
use std::io;
use std::io::Write;
use std::ops::ControlFlow;

// How many octets the whole blocks at the front of a part take, as their LEN says.
fn whole_blocks(part: &[u8]) -> usize
    ensures { result ≡ whole_in part.now }
{
    let mut rest = part;
    // No `for`: where a block ends is known once its head is read.
    while let Some(next) = rest.get(recordings::block_length(rest)..) {
        rest = next;
    }
    part.len() - rest.len()
}

// What is known so far, and the octets still wanted, from a place of the buffer to before another.
#[derive(Clone, Copy)]
struct Pending {
    state: KeptState,
    from: usize,
    to: usize,
}

// Feeds the whole blocks that came, or at the input's end what is left over; the first fault found ends the work.
fn advance(
    state: KeptState,
    filled: Filled,
    buffer: &[u8],
) -> ControlFlow<Result<Counts, Refused>, Pending>
    requires { Came filled (length buffer.now) }
    ensures is { turn_of result ≡ turned (kept_state_of state) filled buffer.now }
    ensures within { Wanted result (length buffer.now) }
{
    match filled {
        Filled::End(n) => ControlFlow::Break(state.feed(&buffer[..n]).finish()),
        Filled::More(n) => {
            let whole = whole_blocks(&buffer[..n]);
            let next = state.feed(&buffer[..whole]);
            let known = next.finish();
            if known.is_err() {
                return ControlFlow::Break(known);
            }
            ControlFlow::Continue(Pending {
                state: next,
                from: whole,
                to: n,
            })
        }
    }
}

// ---- the line

// Two numbers between three texts, from the buffer's start on; what has no room is left out.
fn put_sentence(out: &mut [u8], s: &[u8], n: u64, t: &[u8], m: u64, u: &[u8]) -> usize
    ensures { page out.new result ≡ puts (sentence s.now n t.now m u.now) (page out.old 0) }
{
    let a = text::put_text(out, 0, s);
    let b = text::put_decimal(out, a, n);
    let c = text::put_text(out, b, t);
    let d = text::put_decimal(out, c, m);
    text::put_text(out, d, u)
}

// The line that says what a recording is, at the buffer's start, and its length: the longest has two numbers of 20 digits. No `Display`, of which nothing is
// known where it fails: this cannot fail.
fn verdict(checked: Result<Counts, Refused>, out: &mut [u8; 66]) -> usize
    ensures size { result ≡ length (verdict_text (whole_of checked)) }
    ensures text { out.new ≡ over (verdict_text (whole_of checked)) out.old }
    ensures room { result ≤ length out.new }
{
    match checked {
        Ok(Counts { blocks, records }) => put_sentence(
            out,
            b"accepted ",
            blocks,
            b" blocks ",
            records,
            b" records\n",
        ),
        Err(refused) => put_sentence(
            out,
            b"refused ",
            refused.number as u64,
            b" at ",
            refused.place as u64,
            b"\n",
        ),
    }
}

fn main(rt: HostRuntime) -> io::Result<()> {
    let mut stdin = rt.stdin();
    // A block has 65,535 octets at most, so that a full buffer always holds a whole one.
    let mut buffer = [0u8; 131072];
    let mut pending = Pending {
        state: KeptState::start(),
        from: 0,
        to: 0,
    };
    for _ in 0..u64::MAX {
        let Ok(filled) = input::refill(&mut stdin, &mut buffer, pending.from, pending.to) else {
            return eprintln!(rt; "asterix_check: standard input cannot be read");
        };
        match advance(pending.state, filled, &buffer) {
            ControlFlow::Break(checked) => {
                let mut line = [0u8; 66];
                let n = verdict(checked, &mut line);
                return rt.stdout().write_all(&line[..n]);
            }
            ControlFlow::Continue(next) => pending = next,
        }
    }
    Ok(())
}
