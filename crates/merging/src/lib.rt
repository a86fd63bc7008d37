// Two recordings on one line, by the times of their records (document 02, W-201): the next record from a place in each, and the run from both first
// records, each of whose steps costs its record only.
#![tactic(auto)]

mod heads;
mod many;
mod run;
mod step;

pub use heads::Standing;
pub use many::{Ran, next_records};
pub use run::{Log, Merge, MergeRefusal, Moved, begin_merge};
pub use step::{Merged, merge_at, merge_step};
