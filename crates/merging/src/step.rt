// The next record of two logs from a place in each (document 02, W-201). Both logs are checked, whole, at every step.
ghost use Rattle.std.specs.Prelude.{◌≡◌, ℤ};
ghost use Rattle.rules.specs.Catalogue.{categories};
ghost use Rattle.rules.specs.Merge.{mod_day, merge_step};
ghost use Rattle.merging.specs.Step.{merged_of, places_step, PartOf};

use crate::heads::seek;
use crate::run::{Log, Merge, MergeRefusal, begin_merge, pick};
use finding::part_of;
use rules::Fault;

// The record that comes next: its log, its start and its length there; and the new places.
#[derive(Clone, Copy, Debug, PartialEq, Eq)]
pub struct Merged {
    pub log: Log,
    pub start: usize,
    pub size: usize,
    pub place_a: usize,
    pub place_b: usize,
}

// From a place in each of two logs that are accepted, with the offset modulo a day.
fn step_from(
    log_a: &[u8],
    log_b: &[u8],
    place_a: usize,
    place_b: usize,
    turn: u64,
) -> Result<Option<Merged>, MergeRefusal>
    ensures { (o : ℤ) → turn ≡ mod_day o → merged_of place_a place_b result ≡ places_step log_a.now log_b.now place_a place_b o }
{
    let Some(a) = seek(log_a, place_a) else {
        return Err(MergeRefusal::Asked(Fault::PlaceInside));
    };
    let Some(b) = seek(log_b, place_b) else {
        return Err(MergeRefusal::Asked(Fault::PlaceInside));
    };
    let Some(moved) = (Merge { a, b, turn }).step(log_a, log_b) else {
        return Ok(None);
    };
    Ok(Some(Merged {
        log: moved.log,
        start: moved.at.place,
        size: moved.size,
        place_a: moved.merge.a.at.place,
        place_b: moved.merge.b.at.place,
    }))
}

// Which record comes next, and the new places; `None` where both are at their ends. The logs' own refusals and OffsetRange as where a run begins, then
// PlaceInside. By the type no place comes with these and with `None`: the step's are then those given (`merged_of`), and `asterix_merge_step` hands them back.
pub fn merge_at(
    log_a: &[u8],
    log_b: &[u8],
    place_a: usize,
    place_b: usize,
    offset: i64,
) -> Result<Option<Merged>, MergeRefusal>
    ensures { merged_of place_a place_b result ≡ merge_step categories log_a.now log_b.now place_a place_b offset }
{
    match begin_merge(log_a, log_b, offset) {
        Ok(merge) => step_from(log_a, log_b, place_a, place_b, merge.turn),
        Err(refusal) => Err(refusal),
    }
}

// The next record, as that very part of whichever log it is in; the empty part at log A's start where none comes.
pub fn merge_step<'a>(
    log_a: &'a [u8],
    log_b: &'a [u8],
    place_a: usize,
    place_b: usize,
    offset: i64,
) -> &'a [u8]
    ensures { PartOf log_a.entry log_b.entry result (merge_step categories log_a.now log_b.now place_a place_b offset) }
{
    match merge_at(log_a, log_b, place_a, place_b, offset) {
        Ok(Some(merged)) => match merged.log {
            Log::A => part_of(log_a, merged.start, merged.size),
            Log::B => part_of(log_b, merged.start, merged.size),
        },
        Ok(None) => part_of(log_a, 0, 0),
        Err(_) => part_of(log_a, 0, 0),
    }
}
