// The parts of an item, end to end: how many there are and how many octets they take, and their fields, part by part.
ghost use Rattle.std.specs.Prelude.{◌≡◌, true, ◌+◌, ◌-◌, ◌*◌, ◌%◌, ◌≤◌, ◌<◌, ◌^◌, length, take, drop, eqb};
ghost use Rattle.std.proofs.lemmas.List.Edits.{sets};
ghost use Rattle.rules.specs.Chain.{joined, flatten};
ghost use Rattle.layouts.specs.Read.{rows_at, part_at, legal, span, parts_sound, values, count, holds, part_values, run_legal, run_fault, run_sound, first_sound, run_rest, run_values, run_holds, shape_is, chain, list_shape, head_of, step_of, run_of, shape_of, whole_of, row_sound};
ghost use Rattle.tables.specs.Tables.{group_count, group_at};
ghost use Rattle.tables.specs.declared.tables.Kind.TheVariants.{Repeated};

use super::fields::fields_store;
use numbers::{octet, wide};
use rules::{Fault, Refusal};
use tables::{Kind, LayoutRow, are_obeyed, first_rule, group_at, is_free, size_at};

// The number of some octets, high octet first.
fn number_of(octets: &[u8]) -> u64
    requires { length octets.now ≤ 8 }
    ensures { (result ≡ joined octets.now) × (result < 2 ^ (8 * length octets.now)) }
{
    let mut n: u64 = 0;
    for x in octets {
        n = n * 256 + wide(*x);
    }
    n
}

// ---- parts

// Parts end to end: where the first starts, how many there are, and the first's group. With step 1 each part has the next group and ends in an FX
// bit, with step 0 all share that group.
#[derive(Clone, Copy)]
pub struct Run {
    pub at: usize,
    pub count: usize,
    pub group: usize,
    pub step: usize,
}

impl Run {
    // The parts of an item that has so many.
    fn of(l: LayoutRow, count: usize) -> Run
        ensures { result ≡ run_of l count }
    {
        Run {
            at: head_of(l.kind),
            count,
            group: l.first,
            step: step_of(l.kind),
        }
    }

    // The parts after the first.
    fn rest(self) -> Run
        requires { (self.step ≤ 1) × (0 < self.count) × (self.group < group_count) × (self.at + (group_at self.group).octets < 2 ^ 63) }
        ensures { result ≡ run_rest self }
    {
        Run {
            at: self.at + size_at(self.group),
            count: self.count - 1,
            group: self.group + self.step,
            step: self.step,
        }
    }

    // Whether the fields of the first part are legal: those that have a rule obey it.
    pub fn first_legal(self, s: &[u8]) -> bool
        requires { first_sound self s.now }
        ensures { result ≡ legal (rows_at self.group) (part_at self.step self.group (drop self.at s.now)) }
    {
        let first = first_rule(self.group);
        let end = first_rule(self.group + 1);
        if end <= first {
            return true;
        }
        let size = size_at(self.group);
        let number = number_of(&s[self.at..self.at + size]);
        are_obeyed(number >> self.step, first, end)
    }

    // Whether the fields of every part are.
    fn is_legal(self, s: &[u8]) -> bool
        requires { run_sound self s.now }
        ensures { result ≡ run_legal self s.now }
    {
        let mut run = self;
        for _done in 0..self.count {
            if !run.first_legal(s) {
                return false;
            }
            run = run.rest();
        }
        true
    }

    // Where the first field at fault stands, counted from the item's first octet. It is asked on refusal alone. Whichever field it is, the refusal is
    // at the item's start, so nothing is looked at.
    pub fn fault_at(self, s: &[u8]) -> usize
        requires { run_sound self s.now }
        ensures { result ≡ run_fault self s.now }
    {
        0
    }

    // The values of the first part, from a place of the output on; the place after them.
    fn first_store(self, s: &[u8], out: &mut [i64; 8192], start: usize) -> usize
        requires step_bound { first_sound self s.now }
        requires group_bound { start + count (rows_at self.group) ≤ 8_192 }
        ensures { (result ≡ start + count (rows_at self.group)) × (out.new ≡ sets out.old start (values (rows_at self.group) (part_at self.step self.group (drop self.at s.now)))) }
    {
        let r = group_at(self.group);
        let size = r.octets;
        let w = 8 * size - self.step;
        let number = number_of(&s[self.at..self.at + size]);
        fields_store(number >> self.step, w as u64, r.first, r.end, out, start)
    }

    // The values of every part.
    fn store(self, s: &[u8], out: &mut [i64; 8192], start: usize) -> usize
        requires there { run_sound self s.now }
        requires room { start + run_holds self ≤ 8_192 }
        ensures { (result ≡ start + run_holds self) × (out.new ≡ sets out.old start (run_values self s.now)) }
    {
        let mut run = self;
        let mut next = start;
        for _done in 0..self.count {
            next = run.first_store(s, out, next);
            run = run.rest();
        }
        next
    }
}

// How many octets come before the parts.
fn head_of(kind: Kind) -> usize
    ensures { result ≡ head_of kind }
{
    match kind {
        Kind::Repeated | Kind::Led => 1,
        _ => 0,
    }
}

// Whether each part has its own group, and an FX bit.
fn step_of(kind: Kind) -> usize
    ensures { result ≡ step_of kind }
{
    match kind {
        Kind::Extended => 1,
        _ => 0,
    }
}

// ---- shapes

// How many parts an item has, and how many octets it takes.
#[derive(Clone, Copy)]
pub struct Parts {
    pub count: usize,
    pub long: usize,
}

// Whether the FX bit of a part's last octet says that no other part follows.
fn is_last(x: u8) -> bool
    ensures { result ≡ eqb (x % 2) 0 }
{
    x % 2 == 0
}

// The shape of an item whose parts follow each other as far as the FX bits say, at most those of the groups from first to before last.
fn chain_of(s: &[u8], first: usize, last: usize) -> Result<Parts, Refusal>
    requires { (last ≤ group_count) × (parts_sound 1 first (last - first) ≡ true) }
    ensures { shape_is result ≡ chain first (last - first) s.now }
{
    let mut at: usize = 0;
    let mut count: usize = 0;
    for g in first..last {
        let size = size_at(g);
        if s.len() - at < size {
            return Err(Fault::ItemCut.at(0));
        }
        at += size;
        count += 1;
        if is_last(s[at - 1]) {
            return Ok(Parts { count, long: at });
        }
    }
    Err(Fault::FxPastEnd.at(0))
}

// The shape of a list of n parts, of which an item may have so many, in as many octets as there are.
fn list_of(l: LayoutRow, n: usize, have: usize) -> Result<Parts, Refusal>
    requires { (row_sound l ≡ true) × (l.kind ≡ Repeated) × (n ≤ 255) }
    ensures { shape_is result ≡ list_shape l.least l.most (group_at l.first).octets n have }
{
    let long = 1 + n * size_at(l.first);
    if have < long {
        return Err(Fault::ItemCut.at(0));
    }
    if n < l.least || l.most < n {
        return Err(Fault::FieldBarred.at(0));
    }
    Ok(Parts { count: n, long })
}

// The shape of an item that starts a part of a block, by its layout: 21 where there is no item, and for a compound one, which has no parts of its
// own; 9 where its count or length octet is cut, 10 where its length is under the least, 9 where it is cut, 6 where FX asks for more than is
// printed, 11 where its count is barred.
pub fn shape_of(l: LayoutRow, s: &[u8]) -> Result<Parts, Refusal>
    requires { row_sound l ≡ true }
    ensures { shape_is result ≡ shape_of l s.now }
{
    match l.kind {
        Kind::NoItem | Kind::Compound => Err(Fault::ReferenceUnknown.at(0)),
        Kind::Fixed => {
            let long = size_at(l.first);
            if s.len() < long {
                return Err(Fault::ItemCut.at(0));
            }
            Ok(Parts { count: 1, long })
        }
        Kind::Repeated => {
            if s.len() < 1 {
                return Err(Fault::ItemCut.at(0));
            }
            list_of(l, octet(s[0]), s.len())
        }
        Kind::Led => {
            if s.len() < 1 {
                return Err(Fault::ItemCut.at(0));
            }
            let long = octet(s[0]);
            if long <= l.least {
                return Err(Fault::LengthTooSmall.at(0));
            }
            if s.len() < long {
                return Err(Fault::ItemCut.at(0));
            }
            Ok(Parts {
                count: long - 1,
                long,
            })
        }
        Kind::Extended => chain_of(s, l.first, l.end),
    }
}

// The shape of an item whose fields are legal, else 11. The fields of a free group need no look, however many parts there are.
pub fn whole_of(l: LayoutRow, s: &[u8]) -> Result<Parts, Refusal>
    requires { row_sound l ≡ true }
    ensures { shape_is result ≡ whole_of l s.now }
{
    let parts = shape_of(l, s)?;
    let run = Run::of(l, parts.count);
    if run.step == 0 {
        if is_free(l.first) {
            return Ok(parts);
        }
    }
    if !run.is_legal(s) {
        return Err(Fault::FieldBarred.at(run.fault_at(s)));
    }
    Ok(parts)
}

// ---- storing

// The values of an item with so many parts, from a place of the output on; the place after them.
pub fn item_store(
    l: LayoutRow,
    s: &[u8],
    parts: usize,
    out: &mut [i64; 8192],
    start: usize,
) -> usize
    requires parts_value { (parts_sound (step_of l.kind) l.first parts ≡ true) × (head_of l.kind + span (step_of l.kind) l.first parts ≤ length s.now) }
    requires parts_bound { start + holds (step_of l.kind) l.first parts ≤ 8_192 }
    ensures { (result ≡ start + holds (step_of l.kind) l.first parts) × (out.new ≡ sets out.old start (flatten (part_values (step_of l.kind) l.first parts (drop (head_of l.kind) s.now)))) }
{
    Run::of(l, parts).store(s, out, start)
}
