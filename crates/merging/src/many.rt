// The next records of a run, as many as there is room for (document 02, W-201).
ghost use Rattle.std.specs.Prelude.{◌≡◌, ◌+◌, ◌/◌, ◌≤◌, length};
ghost use Rattle.std.proofs.lemmas.List.Edits.{sets};
ghost use Rattle.rules.specs.Entry.{over};
ghost use Rattle.merging.specs.Many.{numbers_of, many_of, ran_of};
ghost use Rattle.merging.specs.Run.{digit_of};

use crate::heads::{Standing, behind, stand_in};
use crate::run::{Log, Merge, Side, first_by, pick};
use numbers::octet;

// How many came out, and the state after them.
#[derive(Clone, Copy)]
pub struct Ran {
    pub count: usize,
    pub merge: Merge,
}

// The numbers of a record, at a place of the output: its log, how many bytes it has, and the walk at it. Numbers, as C takes them.
fn put(out: &mut [usize], place: usize, log: Log, head: Standing)
    requires { place + 6 ≤ length out.old }
    ensures { out.new ≡ sets out.old place (numbers_of (digit_of log) head.size head.at) }
{
    let at = head.at;
    let numbers = [
        log.number() as usize,
        head.size,
        at.block,
        at.place,
        at.end,
        octet(at.category),
    ];
    out[place..place + 6].copy_from_slice(&numbers);
}

// The next records of two logs, six numbers each: as many as there is room for, and fewer only where both logs are at their ends. Of any state: what
// comes out lies in its log.
pub fn next_records(merge: Merge, log_a: &[u8], log_b: &[u8], out: &mut [usize]) -> Ran
    ensures answer { result ≡ ran_of (many_of (length out.old / 6) log_a.now log_b.now merge) }
    ensures left { out.new ≡ over (many_of (length out.old / 6) log_a.now log_b.now merge).numbers out.old }
{
    let room = out.len() / 6;
    let turn = merge.turn;
    // In an array, so that one is taken by its log's number and no field is chosen by itself.
    let mut sides = [
        Side::new(merge.a, log_a.len()),
        Side::new(merge.b, log_b.len()),
    ];
    for n in 0..room {
        let Some(log) = first_by(sides[0], sides[1], turn) else {
            return Ran {
                count: n,
                merge: Merge {
                    a: sides[0].head,
                    b: sides[1].head,
                    turn,
                },
            };
        };
        let i = log.number() as usize;
        let head = sides[i].head;
        put(out, 6 * n, log, head);
        let after = stand_in(pick(log, log_a, log_b), behind(head));
        // By its fields: the octets that a flag leaves unused would be copied through memory.
        sides[i] = Side {
            head: Standing {
                at: after.at,
                size: after.size,
                timed: after.timed,
                time: after.time,
            },
            there: 0 < after.size,
        };
    }
    Ran {
        count: room,
        merge: Merge {
            a: sides[0].head,
            b: sides[1].head,
            turn,
        },
    }
}
