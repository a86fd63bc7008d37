// The head of a block (document 01, "Block, record, item"; section 4.2.2 of each category document).
//
//      0        1        2        3
//     +--------+--------+--------+---- ..
//     |  CAT   |       LEN       |  records
//     +--------+--------+--------+---- ..
//
// LEN has the higher octet first, and counts all octets of the block.
ghost use Rattle.std.specs.Prelude.{◌≡◌, eqb, leb};
ghost use Rattle.blocks.specs.Read.{head_at, head_by};
ghost use Rattle.blocks.specs.Answers.{head_of};

use rules::Fault;
use tables::{PROFILES, profile_of};

pub const HEAD: usize = 3;

// The least length of a block with a record.
pub const LEAST: usize = 4;

// What a block's head says.
#[derive(Clone, Copy)]
pub struct Head {
    pub profile: usize,
    pub len: usize,
}

// The head at the start of a part, before LEN is held to what is lent.
pub fn read_head(part: &[u8]) -> Result<Head, Fault>
    ensures { head_of result ≡ head_at part.now }
{
    if part.len() < HEAD {
        return Err(Fault::HeadCut);
    }
    let profile = profile_of(part[0]);
    if PROFILES <= profile {
        return Err(Fault::CategoryUnknown);
    }
    let len = u16::from_be_bytes([part[1], part[2]]) as usize;
    if len < HEAD {
        return Err(Fault::LengthWrong);
    }
    Ok(Head { profile, len })
}

// Of a single block: LEN is the length lent.
pub fn single_head(block: &[u8]) -> Result<Head, Fault>
    ensures { head_of result ≡ head_by eqb block.now }
{
    let head = read_head(block)?;
    if head.len != block.len() {
        return Err(Fault::LengthWrong);
    }
    Ok(head)
}

// In a recording: LEN is no more than is left. (Beside `single_head`, since the one test that differs is no plainer as a closure lent.)
pub fn front_head(part: &[u8]) -> Result<Head, Fault>
    ensures { head_of result ≡ head_by leb part.now }
{
    let head = read_head(part)?;
    if part.len() < head.len {
        return Err(Fault::LengthWrong);
    }
    Ok(head)
}
