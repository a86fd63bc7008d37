// What is known of a recording that is fed, as whoever keeps it may write it down: a refusal by any number, which is had back as it is.
ghost use Rattle.std.specs.Prelude.{◌≡◌};
ghost use Rattle.recordings.specs.Feed.{started, fed, finished};
ghost use Rattle.recordings.specs.Answers.{whole_of, kept_so_far_of, kept_state_of};

use super::{Counts, Refused, SoFar, check_recording};

// What is known with a piece more.
fn feed_on(so_far: Result<SoFar, Refused>, piece: &[u8]) -> Result<SoFar, Refused>
    ensures { kept_so_far_of result ≡ fed (kept_so_far_of so_far) piece.now }
{
    let known = so_far?;
    match check_recording(piece) {
        Ok(more) => Ok(SoFar {
            place: known.place.saturating_add(piece.len()),
            counts: Counts {
                blocks: known.counts.blocks.saturating_add(more.blocks),
                records: known.counts.records.saturating_add(more.records),
            },
        }),
        Err(refusal) => Err(Refused {
            number: refusal.fault.number(),
            place: known.place.saturating_add(refusal.place),
        }),
    }
}

// What is known of a recording so far, or the first refusal.
#[derive(Clone, Copy)]
pub struct KeptState {
    pub so_far: Result<SoFar, Refused>,
}

impl KeptState {
    // Before any of it is fed.
    pub fn start() -> KeptState
        ensures { kept_state_of result ≡ started }
    {
        KeptState {
            so_far: Ok(SoFar {
                place: 0,
                counts: Counts {
                    blocks: 0,
                    records: 0,
                },
            }),
        }
    }

    // More of the recording: whole blocks, or at its end what is left over.
    pub fn feed(self, piece: &[u8]) -> KeptState
        ensures { kept_state_of result ≡ fed (kept_state_of self) piece.now }
    {
        KeptState {
            so_far: feed_on(self.so_far, piece),
        }
    }

    // What the whole recording is, once all of it is fed.
    pub fn finish(self) -> Result<Counts, Refused>
        ensures { whole_of result ≡ finished (kept_state_of self) }
    {
        let known = self.so_far?;
        Ok(known.counts)
    }
}
