// Checking: record by record, in one pass.
ghost use Rattle.std.specs.Prelude.{◌≡◌, ◌+◌, ◌<◌, length};
ghost use Rattle.rules.specs.Catalogue.{categories};
ghost use Rattle.rules.specs.Entry.{check_block};
ghost use Rattle.sets.specs.Sets.{category_at};
ghost use Rattle.blocks.specs.Read.{count_from, open_from, check_front};
ghost use Rattle.blocks.specs.Answers.{checked_of, opened_of, front_of};

use crate::heads::{HEAD, Head, LEAST, front_head, single_head};
use quick_records::Tables;
use rules::{Fault, Refusal};

// How many records fill a part, which starts at a place of its block.
fn check_records(
    tables: &Tables,
    profile: usize,
    part: &[u8],
    from: usize,
) -> Result<usize, Refusal>
    requires { from + length part.now < 65536 }
    ensures { checked_of result ≡ count_from (category_at profile) 0 from part.now }
{
    let mut rest = part;
    let mut at = from;
    let mut n: usize = 0;
    // No `for`: where a record ends is known once it is checked.
    while !rest.is_empty() {
        let end = quick_records::record_end(tables, profile, rest, at)?;
        let used = end - at;
        rest = &rest[used..];
        at = end;
        n += 1;
    }
    Ok(n)
}

// A single block: its profile, and its count of records.
#[derive(Clone, Copy)]
pub struct Opened {
    pub profile: usize,
    pub records: usize,
}

// LEN is least at least: 4 where a record is asked for, 3 where a record is to be added.
pub fn open_block(block: &[u8], least: usize) -> Result<Opened, Refusal>
    ensures { opened_of result ≡ open_from least block.now }
{
    let Head { profile, len } = single_head(block)?;
    if len < least {
        return Err(Fault::BlockEmpty.at(0));
    }
    let tables = Tables::new();
    let records = check_records(&tables, profile, &block[HEAD..], HEAD)?;
    Ok(Opened { profile, records })
}

// A single block, all of the bytes lent: its count of records. A refusal's place is counted from the block's start.
pub fn check_block(block: &[u8]) -> Result<usize, Refusal>
    ensures { checked_of result ≡ check_block categories block.now }
{
    let opened = open_block(block, LEAST)?;
    Ok(opened.records)
}

// The block at the front of a recording: how many bytes it takes, and its count of records.
#[derive(Clone, Copy)]
pub struct Front {
    pub len: usize,
    pub records: usize,
}

// A refusal's place is counted from the block's start. The tables stand in the library: what is lent says where, and costs no block anything.
pub fn check_front(tables: &Tables, part: &[u8]) -> Result<Front, Refusal>
    ensures { front_of result ≡ check_front part.now }
{
    let Head { profile, len } = front_head(part)?;
    if len == HEAD {
        return Err(Fault::BlockEmpty.at(0));
    }
    let records = check_records(tables, profile, &part[HEAD..len], HEAD)?;
    Ok(Front { len, records })
}
