// A recording: blocks end to end, checked whole, or block by block as it is read (document 01, "What the reader and writer cover").
#![tactic(auto)]

ghost use Rattle.std.specs.Prelude.{◌≡◌};
ghost use Rattle.rules.specs.Catalogue.{categories};
ghost use Rattle.rules.specs.Entry.{check_recording};
ghost use Rattle.recordings.specs.Feed.{started, fed, finished, block_length};
ghost use Rattle.recordings.specs.Answers.{counts_of, so_far_of, state_of};

mod kept;
#[cfg(test)]
mod tests;

use blocks::HEAD;
pub use kept::KeptState;
use quick_records::Tables;
use rules::Refusal;

// How many blocks a recording has, and how many records.
#[derive(Clone, Copy)]
pub struct Counts {
    pub blocks: u64,
    pub records: u64,
}

// All of a recording, which may be empty. A refusal's place is counted from the recording's start.
pub fn check_recording(recording: &[u8]) -> Result<Counts, Refusal>
    ensures { counts_of result ≡ check_recording categories recording.now }
{
    let mut rest = recording;
    let mut place: usize = 0;
    let mut counts = Counts {
        blocks: 0,
        records: 0,
    };
    let tables = Tables::new();
    // No `for`: where a block ends is known once its head is read.
    while !rest.is_empty() {
        let front = match blocks::check_front(&tables, rest) {
            Ok(front) => front,
            Err(refusal) => return Err(refusal.later(place)),
        };
        rest = &rest[front.len..];
        place += front.len;
        counts.blocks += 1;
        counts.records += front.records as u64;
    }
    Ok(counts)
}

// ---- block by block

// How long the piece is that a block's head starts: LEN, but the head at least.
pub fn block_length(head: &[u8]) -> usize
    ensures { result ≡ block_length head.now }
{
    if head.len() < HEAD {
        return HEAD;
    }
    let len = u16::from_be_bytes([head[1], head[2]]) as usize;
    HEAD.max(len)
}

// How many bytes came, and their blocks and records, as far as the greatest number.
#[derive(Clone, Copy)]
pub struct SoFar {
    pub place: usize,
    pub counts: Counts,
}

// What is known with a piece more.
fn feed_on(so_far: Result<SoFar, Refusal>, piece: &[u8]) -> Result<SoFar, Refusal>
    ensures { so_far_of result ≡ fed (so_far_of so_far) piece.now }
{
    let known = so_far?;
    match check_recording(piece) {
        Ok(more) => Ok(SoFar {
            place: known.place.saturating_add(piece.len()),
            counts: Counts {
                blocks: known.counts.blocks.saturating_add(more.blocks),
                records: known.counts.records.saturating_add(more.records),
            },
        }),
        Err(refusal) => Err(refusal.fault.at(known.place.saturating_add(refusal.place))),
    }
}

// What is known of a recording so far, or the first refusal.
#[derive(Clone, Copy)]
pub struct RecordingState {
    pub so_far: Result<SoFar, Refusal>,
}

impl RecordingState {
    // Before any of it is fed.
    pub fn start() -> RecordingState
        ensures { state_of result ≡ started }
    {
        RecordingState {
            so_far: Ok(SoFar {
                place: 0,
                counts: Counts {
                    blocks: 0,
                    records: 0,
                },
            }),
        }
    }

    // More of the recording: whole blocks, or at its end what is left over.
    pub fn feed(self, piece: &[u8]) -> RecordingState
        ensures { state_of result ≡ fed (state_of self) piece.now }
    {
        RecordingState {
            so_far: feed_on(self.so_far, piece),
        }
    }

    // What the whole recording is, once all of it is fed.
    pub fn finish(self) -> Result<Counts, Refusal>
        ensures { counts_of result ≡ finished (state_of self) }
    {
        let known = self.so_far?;
        Ok(known.counts)
    }
}

// Why a recording is refused whose state is kept (`KeptState`). A number and no `Fault`: whoever keeps one may write any down, and has it back.
#[derive(Clone, Copy)]
pub struct Refused {
    pub number: u8,
    pub place: usize,
}
