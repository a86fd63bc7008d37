// Where a record ends: by its shape, by its items one after the other, or by the exact check.
ghost use Rattle.std.specs.Prelude.{◌≡◌, ◌<◌, ◌+◌, length};
ghost use Rattle.records.specs.Answers.{end_of};
ghost use Rattle.quick_records.specs.Record.{end_at};

use super::lent::Tables;
use super::record::quick_record;
use super::shape::shaped_record;
use records::check_record;
use rules::Refusal;

// Where the record ends that starts a part, which stands at a place, or its refusal. The library has one caller of this, so that it is compiled into that
// loop (docs/PERFORMANCE.md).
pub fn record_end(tables: &Tables, profile: usize, part: &[u8], at: usize) -> Result<usize, Refusal>
    requires { at + length part.now < 65536 }
    ensures { end_of result ≡ end_at profile at part.now }
{
    if let Some(octets) = shaped_record(tables, profile, part) {
        return Ok(at + octets);
    }
    if let Some(octets) = quick_record(tables, profile, part) {
        return Ok(at + octets);
    }
    let map = check_record(&tables.steps, profile, part, at)?;
    Ok(map.end)
}
