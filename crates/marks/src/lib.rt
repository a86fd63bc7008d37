// Marks in lent bytes (document 02, W-203, W-211): one mark, a pass over a list of them, the mark with a number, and a changed list by its numbers.
#![tactic(auto)]

ghost use Rattle.std.specs.Prelude.{◌≡◌, ℕ, ◌+◌, ◌*◌, ◌<◌, ◌≤◌, ◌^◌, ◌||◌, ltb, length};
ghost use Rattle.rules.specs.Mark.{size, ok_mark, number4, log_in, mark_in, fits, count};
ghost use Rattle.marks.specs.Lists.{passing, tally, both_tallies, shape_for, place_for, mark_at, end_of, Held, held_in, new_count, new_at, new_marks, Sound, found_mark, sound_prop, held_prop};

use rules::{Mark, Shape};

// ---- one mark

// The last log and the last station that there are (W-203).
pub const LAST_LOG: u8 = 1;

pub const LAST_STATION: u8 = 5;

// The number of four bytes, the highest first.
pub fn number_4(bs: &[u8]) -> u32
    requires { 4 ≤ length bs.now }
    ensures { result ≡ number4 bs.now }
{
    u32::from_be_bytes([bs[0], bs[1], bs[2], bs[3]])
}

// How many bytes a mark has.
pub fn size_of(shape: Shape) -> usize
    ensures { (result ≡ size shape) × (result ≤ 8) }
{
    match shape {
        Shape::Whole => 8,
        Shape::InLog(_) => 7,
    }
}

fn log_in(bs: &[u8], shape: Shape) -> u8
    requires { size shape ≤ length bs.now }
    ensures { result ≡ log_in shape bs.now }
{
    match shape {
        Shape::Whole => bs[4],
        Shape::InLog(l) => l,
    }
}

// The mark that the first bytes spell.
fn mark_in(bs: &[u8], shape: Shape) -> Mark
    requires { size shape ≤ length bs.now }
    ensures { result ≡ mark_in shape bs.now }
{
    let n = size_of(shape);
    Mark {
        log: log_in(bs, shape),
        place: number_4(bs),
        station: bs[n - 3],
        comment: bs[n - 2],
    }
}

// Where a mark at a log and place stands in the order: by log, then by place. A number, as the rules have it (`key`): the least key that may come next is one more, for which a
// derived order of the pair has no plain form.
pub fn key_of(log: u8, place: u32) -> usize
    ensures { (result ≡ log * 4294967296 + place) × (result < 2 ^ 41) }
{
    (log as usize) * 4294967296 + (place as usize)
}

// Whether there are its log and its station.
pub fn mark_ok(m: Mark) -> bool
    ensures { result ≡ ok_mark m }
{
    m.log <= LAST_LOG && m.station <= LAST_STATION
}

// Whether a mark is legal, with its last byte zero, and not below the least key.
fn mark_fits(m: Mark, last: u8, least: usize) -> bool
    ensures { result ≡ fits m last least }
{
    mark_ok(m) && last == 0 && least <= key_of(m.log, m.place)
}

// ---- a pass over marks

// What a pass tells of marks: how many they are, how many of them are log 0's, how many are below a key, and whether one stands at it.
#[derive(Clone, Copy, Default)]
pub struct Tally {
    pub count: usize,
    pub first: usize,
    pub below: usize,
    pub found: bool,
}

// The marks end to end in a body, as far as they are legal and rise, with a key that is looked for: all that reading and changing a sheet asks of its
// marks, in one pass.
pub fn pass_marks(body: &[u8], n: usize, shape: Shape, key: usize) -> Tally
    requires { n * size shape ≤ length body.now }
    ensures { result ≡ tally key (passing shape 0 n body.now) }
{
    let size = size_of(shape);
    let mut least = 0;
    let mut tally = Tally::default();
    for i in 0..n {
        let rest = &body[i * size..];
        let m = mark_in(rest, shape);
        if !mark_fits(m, rest[size - 1], least) {
            return tally;
        }
        let k = key_of(m.log, m.place);
        tally.count += 1;
        tally.first += usize::from(m.log == 0);
        tally.below += usize::from(k < key);
        tally.found |= k == key;
        least = k + 1;
    }
    tally
}

// What is told of two lists, one after the other.
pub fn both_tallies(low: Tally, high: Tally) -> Tally
    requires { (low.count + high.count < 2 ^ 32) × ((low.first + high.first < 2 ^ 32) × (low.below + high.below < 2 ^ 32)) }
    ensures { result ≡ both_tallies low high }
{
    Tally {
        count: low.count + high.count,
        first: low.first + high.first,
        below: low.below + high.below,
        found: low.found | high.found,
    }
}

// ---- marks by their numbers

// Where marks lie in lent bytes: in one list of whole marks from a place on; or in two, log 0's from there on and log 1's three bytes after it.
// How many the first list has, and how many there are.
#[derive(Clone, Copy)]
pub struct Lists {
    pub split: bool,
    pub base: usize,
    pub first: usize,
    pub count: usize,
}

fn shape_at(lists: Lists, i: usize) -> Shape
    ensures { result ≡ shape_for lists.split (ltb i lists.first) }
{
    match (lists.split, i < lists.first) {
        (false, _) => Shape::Whole,
        (true, true) => Shape::InLog(0),
        (true, false) => Shape::InLog(1),
    }
}

fn place_at(lists: Lists, i: usize) -> usize
    requires { (i < 8192) × (lists.base ≤ 14) }
    ensures { result ≡ place_for lists.split (ltb i lists.first) lists.base i }
{
    match (lists.split, i < lists.first) {
        (false, _) => lists.base + i * 8,
        (true, true) => lists.base + i * 7,
        (true, false) => lists.base + 3 + i * 7,
    }
}

// Where the marks end.
pub fn end_of(lists: Lists) -> usize
    requires { (lists.count ≤ 8191) × (lists.base ≤ 14) }
    ensures { (result ≡ end_of lists) × (result < 70000) }
{
    if lists.split {
        lists.base + 3 + lists.count * 7
    } else {
        lists.base + lists.count * 8
    }
}

// The mark with a number.
pub fn mark_at(s: &[u8], lists: Lists, i: usize) -> Mark
    requires { (i < lists.count) × Held lists s.now }
    ensures { result ≡ mark_at lists s.now i }
{
    let shape = shape_at(lists, i);
    let at = place_at(lists, i);
    mark_in(&s[at..], shape)
}

// ---- a changed list by its numbers

// What is done to a list of marks.
#[derive(Clone, Copy)]
pub enum Change {
    Keep,
    Insert(usize, Mark),
    Skip(usize),
    Clear,
}

// A list of marks that lies in lent bytes, changed.
#[derive(Clone, Copy)]
pub struct NewList<'a> {
    pub bytes: &'a [u8],
    pub lists: Lists,
    pub change: Change,
    ghost sound: { Sound change lists } by { sound_prop change lists },
    ghost held: { Held lists bytes.now } by { held_prop lists bytes.now },
}

impl NewList<'_> {
    // How many marks it has.
    pub fn count(&self) -> usize
        ensures { (result ≡ new_count self.now.change self.now.lists) × (result ≤ 8192) }
    {
        match self.change {
            Change::Keep => self.lists.count,
            Change::Insert(_, _) => self.lists.count + 1,
            Change::Skip(_) => self.lists.count - 1,
            Change::Clear => 0,
        }
    }

    // The mark with a number.
    pub fn mark(&self, j: usize) -> Mark
        requires { j < new_count self.now.change self.now.lists }
        ensures { result ≡ new_at self.now.change self.now.lists self.now.bytes.now j }
    {
        let i = match self.change {
            Change::Keep => j,
            Change::Insert(k, m) => {
                if j == k {
                    return m;
                }
                if j < k { j } else { j - 1 }
            }
            Change::Skip(gone) => { if j < gone { j } else { j + 1 } }
            Change::Clear => unreachable!(),
        };
        mark_at(self.bytes, self.lists, i)
    }

    // How many of its marks are of a station: a fresh count.
    pub fn count_of(&self, station: u8) -> usize
        ensures is { result ≡ count station (new_marks self.now.change self.now.lists self.now.bytes.now) }
        ensures within { result ≤ new_count self.now.change self.now.lists }
    {
        let mut total = 0;
        for j in 0..self.count() {
            total += usize::from(self.mark(j).station == station);
        }
        total
    }
}

// ---- for any caller: nothing is asked of the bytes or of the lists

// Whether the lists lie in so many bytes: no more marks than the length of a field can say, from no later place than a sheet's marks start at.
fn lists_held(lists: Lists, len: usize) -> bool
    ensures { result ≡ held_in lists len }
{
    lists.count <= 8191 && lists.base <= 14 && end_of(lists) <= len
}

// The mark with a number, of a sheet whose lists reading told.
pub fn find_mark(sheet: &[u8], lists: Lists, i: usize) -> Option<Mark>
    ensures { result ≡ found_mark lists sheet.now i }
{
    if i < lists.count && lists_held(lists, sheet.len()) {
        Some(mark_at(sheet, lists, i))
    } else {
        None
    }
}
