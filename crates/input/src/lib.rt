// A reader, as standard input, through a buffer: what is still wanted of it moves to the front, and what comes next is read behind that.
#![tactic(auto)]

ghost use Rattle.std.specs.Prelude.{◌≡◌, ◌-◌, ◌≤◌, length, IfOk};
ghost use Rattle.input.specs.Filled.{Fills, Keeps};

use std::io;
use std::io::Read;

// What one more read brings.
#[derive(Drop)]
pub enum Filled {
    // The buffer now holds so many octets: those kept, and one or more new ones.
    More(usize),
    // The input has ended: so many octets were kept.
    End(usize),
}

// Keeps the octets from a place to before another, which move to the front, and reads once from a reader behind them. Stated of the buffer are its length
// and the octets kept, whatever is answered. Left open is what no contract of a read says: what stands behind those kept, whether octets came or not; and
// which of the answers it is. Where those kept fill the buffer, nothing can come, and the answer is `End` or an error.
pub fn refill<R: Read>(
    reader: &mut R,
    buffer: &mut [u8],
    from: usize,
    to: usize,
) -> io::Result<Filled>
    requires { (from ≤ to) × (to ≤ length buffer.old) }
    ensures came { IfOk result (λ filled. Fills filled (to - from) (length buffer.old)) }
    ensures kept { Keeps buffer.old buffer.new from to }
{
    let kept = to - from;
    buffer.copy_within(from..to, 0);
    let came = reader.read(&mut buffer[kept..])?;
    if came == 0 {
        return Ok(Filled::End(kept));
    }
    Ok(Filled::More(kept + came))
}
