// The check of an item that accepts only, with few looks, by a table of words. What it does not tell is left to the exact check. The same table says how
// many octets an item has that was checked, where its first octet tells.
#![tactic(auto)]

ghost use Rattle.std.specs.Prelude.{◌≡◌, true, ◌/◌, ◌%◌, ◌≤◌, ◌<◌, ◌^◌, Some, None, MatchOption, length, get_or};
ghost use Rattle.items.specs.Answers.{check_at};
ghost use Rattle.quick_items.specs.Item.{Plainly, rule_rows, step_count, first_three, asks, asked, kind_by, place_for, sound_free, sound_ruled, sound_counted, sound_extended, sound_twice, sound_steps, exact_steps, word_for};
ghost use Rattle.layouts.specs.Read.{whole_size};
ghost use Rattle.tables.specs.Tables.{place_count, layout_at, place_row_at};

use numbers::octet;
use tables::{FRNS, PROFILES};

// How many rules there are rows for: a power of 2, since a word's rule is taken modulo this.
const RULES: usize = 16;

// Where the first and the second words of the rules start.
const LOWS: usize = PROFILES * FRNS;

const HIGHS: usize = LOWS + RULES;

// A word for each place of the profiles; then, for each rule, how many bits stand below its field _ what is added to the field's code; then how many bits
// of 64 the field has not _ the greatest sum that is legal.
//
// A word is the octets of an item with one free part; 0 tells nothing. Any other word has columns: the place of a rule, or the least count or
// length _ how the parts lie _ the octets of each part _ the octets of one part, or those before the parts. One word for a place, since it is one look.
static WORDS: [u32; HIGHS + RULES] = [
    // ---- made by model/make.py: steps
    0, //           FRN 0   no item
    2, //           FRN 1   I017/010  5.2.2   Data Source Identifier
    2, //           FRN 2   I017/012  5.2.3   Data Destination Identifier
    1, //           FRN 3   I017/000  5.2.1   Message Type
    0x1_2_2_1, //   FRN 4   I017/350  5.2.14  Cluster Station/Node List
    3, //           FRN 5   I017/220  5.2.10  Aircraft Address
    2, //           FRN 6   I017/221  5.2.11  Duplicate Address Reference Number
    0x0_1_0_3, //   FRN 7   I017/140  5.2.7   Time of Day
    0x1_1_0_6, //   FRN 8   I017/045  5.2.4   Calculated Position in WGS-84 Coordinates
    0x2_1_0_2, //   FRN 9   I017/070  5.2.6   Mode 3/A Code in Octal Representation
    2, //           FRN 10  I017/050  5.2.5   Flight Level in Binary Representation
    4, //           FRN 11  I017/200  5.2.8   Track Velocity in Polar Co-ordinates
    0x3_1_0_1, //   FRN 12  I017/230  5.2.12  Transponder Capability
    0x4_1_0_1, //   FRN 13  I017/240  5.2.13  Track Status
    0x0_2_3_1, //   FRN 14  I017/210  5.2.9   Mode S Address List
    1, //           FRN 15  I017/360  5.2.15  Cluster Controller Command State
    0, //           FRN 16  spare
    0, //           FRN 17  spare
    0, //           FRN 18  spare
    0, //           FRN 19  spare
    0, //           FRN 20  spare
    0, //           FRN 21  reserved for Special Purpose Indicator
    0, //           FRN 22  past the end of the profile
    0, //           FRN 23  past the end of the profile
    0, //           FRN 24  past the end of the profile
    0, //           FRN 25  past the end of the profile
    0, //           FRN 26  past the end of the profile
    0, //           FRN 27  past the end of the profile
    0, //           FRN 28  past the end of the profile
    0, //           FRN 29  past the end of the profile
    0, //           FRN 30  past the end of the profile
    0, //           FRN 31  past the end of the profile
    0, //           FRN 32  past the end of the profile
    0, //           FRN 33  past the end of the profile
    0, //           FRN 34  past the end of the profile
    0, //           FRN 35  past the end of the profile
    0, //           FRN 0   no item
    2, //           FRN 1   I018/036  5.2.34  Data Source Identifier
    2, //           FRN 2   I018/037  5.2.35  Data Destination Identifier
    1, //           FRN 3   I018/000  5.2.1   Message Type
    1, //           FRN 4   I018/001  5.2.2   Result
    3, //           FRN 5   I018/005  5.2.5   Mode S Address
    4, //           FRN 6   I018/016  5.2.16  Packet Number
    0x1_2_4_1, //   FRN 7   I018/017  5.2.17  Packet Number List
    0x5_1_0_1, //   FRN 8   I018/018  5.2.18  Mode S Packet Properties
    0x3_2_1_0, //   FRN 9   I018/019  5.2.19  Mode S Packet
    2, //           FRN 10  I018/028  5.2.26  GICB Extraction Periodicity
    0x6_4_0_2, //   FRN 11  I018/030  5.2.28  GICB Properties
    4, //           FRN 12  I018/025  5.2.24  GICB Number
    1, //           FRN 13  I018/027  5.2.25  BDS Code
    7, //           FRN 14  I018/029  5.2.27  GICB Extracted
    0x0_1_0_3, //   FRN 15  I018/002  5.2.3   Time of Day
    0x1_2_3_1, //   FRN 16  I018/006  5.2.6   Mode S Address List
    0x3_1_0_1, //   FRN 17  I018/007  5.2.7   Aircraft Data Link Command
    0x8_3_0_0, //   FRN 18  I018/008  5.2.8   Aircraft Data Link Status
    0xA_3_0_0, //   FRN 19  I018/009  5.2.9   Aircraft Data Link Report Request
    0xC_1_0_1, //   FRN 20  I018/010  5.2.10  Transponder Communications Capability
    7, //           FRN 21  I018/011  5.2.11  Capability Report
    4, //           FRN 22  I018/014  5.2.14  Aircraft Position in Polar Co-ordinates
    4, //           FRN 23  I018/015  5.2.15  Aircraft Position in Cartesian Co-ordinates
    4, //           FRN 24  I018/020  5.2.20  Broadcast Number
    6, //           FRN 25  I018/021  5.2.21  Broadcast Properties
    0xC_1_0_4, //   FRN 26  I018/022  5.2.22  Broadcast Prefix
    7, //           FRN 27  I018/023  5.2.23  Uplink or Downlink Broadcast
    1, //           FRN 28  I018/004  5.2.4   II Code
    6, //           FRN 29  I018/031  5.2.29  Aircraft Identity
    0x2_1_0_2, //   FRN 30  I018/032  5.2.30  Aircraft Mode A
    2, //           FRN 31  I018/033  5.2.31  Aircraft Height
    0xD_1_0_2, //   FRN 32  I018/034  5.2.32  Aircraft Speed
    2, //           FRN 33  I018/035  5.2.33  Aircraft Heading
    1, //           FRN 34  I018/012  5.2.12  Aircraft Coverage Quality Factor
    1, //           FRN 35  I018/013  5.2.13  Aircraft CQF Calculation Method
    0, //           FRN 0   no item
    2, //           FRN 1   I061/010  5.2.2   SDPS Identification
    1, //           FRN 2   I061/000  5.2.1   Message Type
    1, //           FRN 3   I061/012  5.2.3   User Identification
    1, //           FRN 4   I061/015  5.2.4   Service Identification
    0x0_1_0_3, //   FRN 5   I061/020  5.2.5   Time of Message
    1, //           FRN 6   I061/030  5.2.6   Batch Number
    1, //           FRN 7   I061/045  5.2.7   Application Version Number
    0xE_1_0_1, //   FRN 8   I061/050  5.2.8   Default Geographical Volume
    0x0_5_8_1, //   FRN 9   I061/060  5.2.9   Geographical Area
    0xF_1_0_2, //   FRN 10  I061/070  5.2.10  Lower Limit
    0xF_1_0_2, //   FRN 11  I061/080  5.2.11  Upper Limit
    0x1_2_1_1, //   FRN 12  I061/100  5.2.12  Connection Related Report
    0, //           FRN 13  I061/130  5.2.13  Track Selector
    0, //           FRN 14  I061/210  5.2.14  Item Selector
    0x0_5_0_5, //   FRN 15  I061/220  5.2.15  Cyclical Update Characteristics
    0, //           FRN 16  I061/230  5.2.16  Radar Synchronisation Characteristics
    0, //           FRN 17  I061/240  5.2.17  Triggering Criteria for Aperiodical Services
    0x0_2_2_1, //   FRN 18  I061/330  5.2.18  Service Related Report
    0x0_5_2_1, //   FRN 19  I061/350  5.2.19  Sensor Selector
    0, //           FRN 20  I061/360  5.2.20  Sensor Item Selector
    2, //           FRN 21  I061/370  5.2.21  Periodical Characteristics of Sensor Information Service
    0, //           FRN 22  I061/380  5.2.22  Aperiodical Characteristics of Sensor Information Service
    0, //           FRN 23  no item is printed
    0, //           FRN 24  no item is printed
    0, //           FRN 25  no item is printed
    0, //           FRN 26  no item is printed
    0, //           FRN 27  Reserved Expansion Field
    0, //           FRN 28  Special Purpose Field
    0, //           FRN 29  past the end of the profile
    0, //           FRN 30  past the end of the profile
    0, //           FRN 31  past the end of the profile
    0, //           FRN 32  past the end of the profile
    0, //           FRN 33  past the end of the profile
    0, //           FRN 34  past the end of the profile
    0, //           FRN 35  past the end of the profile
    0x00_000000, // rule 0   I017/140  5.2.7   time of day; I018/002  5.2.3   time of day; I061/020  5.2.5   time of message
    0x00_400000, // rule 1   I017/045  5.2.4   latitude
    0x14_000000, // rule 2   I017/070  5.2.6   spare; I018/032  5.2.30  spare
    0x10_000000, // rule 3   I017/230  5.2.12  spare; I018/007  5.2.7   spare
    0x10_000000, // rule 4   I017/240  5.2.13  spare
    0x17_000000, // rule 5   I018/018  5.2.18  spare
    0x10_000000, // rule 6   I018/030  5.2.28  spare
    0x08_000000, // rule 7   I018/030  5.2.28  spare
    0x12_000000, // rule 8   I018/008  5.2.8   spare
    0x11_000000, // rule 9   I018/008  5.2.8   spare
    0x00_000000, // rule A   I018/009  5.2.9   any bits
    0x11_000000, // rule B   I018/009  5.2.9   spare
    0x13_000000, // rule C   I018/010  5.2.10  spare; I018/022  5.2.22  spare
    0x08_000000, // rule D   I018/034  5.2.32  speed
    0x10_000000, // rule E   I061/050  5.2.8   spare
    0x08_00003C, // rule F   I061/070  5.2.10  lower limit; I061/080  5.2.11  upper limit
    0x28_A8BFFF, // rule 0   I017/140  5.2.7   time of day; I018/002  5.2.3   time of day; I061/020  5.2.5   time of message
    0x28_7FFFFF, // rule 1   I017/045  5.2.4   latitude
    0x3F_000000, // rule 2   I017/070  5.2.6   spare; I018/032  5.2.30  spare
    0x3C_000000, // rule 3   I017/230  5.2.12  spare; I018/007  5.2.7   spare
    0x3A_000000, // rule 4   I017/240  5.2.13  spare
    0x3F_000000, // rule 5   I018/018  5.2.18  spare
    0x3D_000000, // rule 6   I018/030  5.2.28  spare
    0x3D_000000, // rule 7   I018/030  5.2.28  spare
    0x3E_000000, // rule 8   I018/008  5.2.8   spare
    0x3A_000000, // rule 9   I018/008  5.2.8   spare
    0x28_FFFFFF, // rule A   I018/009  5.2.9   any bits
    0x3E_000000, // rule B   I018/009  5.2.9   spare
    0x3B_000000, // rule C   I018/010  5.2.10  spare; I018/022  5.2.22  spare
    0x30_008000, // rule D   I018/034  5.2.32  speed
    0x39_000000, // rule E   I061/050  5.2.8   spare
    0x30_0017AC, // rule F   I061/070  5.2.10  lower limit; I061/080  5.2.11  upper limit
    // ---- end of what is made
];

// A place of the tables.
#[derive(Clone, Copy)]
struct Place {
    index: usize,
    ghost known: { index < place_count },
}

// Where a profile's item at an FRN stands.
fn place_of(profile: usize, frn: usize) -> Option<Place>
    ensures { MatchOption result (None ≡ place_for profile frn) (λ place. Some place.index ≡ place_for profile frn) }
{
    if PROFILES <= profile {
        return None;
    }
    if FRNS <= frn {
        return None;
    }
    Some(Place {
        index: profile * FRNS + frn,
    })
}

// How the parts of an item lie, by the second column of its word.
#[derive(Clone, Copy)]
pub enum Kind {
    // One free part.
    Free,
    // One part with a rule.
    Ruled,
    // A count or length octet and free parts.
    Counted,
    // Two parts at most, of an octet each, as far as FX bits say.
    Extended,
    // One part with two rules.
    Twice,
    // The word says how many octets the item has, and nothing of which are legal.
    Sized,
}

pub fn kind_of(word: usize) -> Kind
    ensures { result ≡ kind_by (word / 256 % 16) }
{
    match word / 256 % 16 {
        0 => Kind::Free,
        1 => Kind::Ruled,
        2 => Kind::Counted,
        3 => Kind::Extended,
        4 => Kind::Twice,
        _ => Kind::Sized,
    }
}

// ---- rules

// The first three octets as one number, those that are missing as zeros.
fn first_three(part: &[u8]) -> usize
    requires { 1 ≤ length part.now }
    ensures { (result ≡ first_three part.now) × (result < 2 ^ 24) }
{
    let one = octet(part[0]) * 65536;
    if part.len() < 2 {
        return one;
    }
    let two = one + octet(part[1]) * 256;
    if part.len() < 3 {
        return two;
    }
    two + octet(part[2])
}

// Whether a number of three octets obeys a rule, given by its two words.
pub fn is_kept(low: usize, high: usize, n: usize) -> bool
    requires { n < 2 ^ 24 }
    ensures { result ≡ asks low high n }
{
    let up = high / 0x100_0000 % 64;
    let code = (n >> (low / 0x100_0000 % 64)) + low % 0x100_0000;
    code << up >> up <= high % 0x100_0000
}

// ---- the table

pub type StepTable = [u32; HIGHS + RULES];

// The word of a profile's item at an FRN, by any table; where the tables have no such place 0, a word that tells nothing.
pub fn word_of(t: &StepTable, profile: usize, frn: usize) -> usize
    ensures { result ≡ word_for t.now profile frn }
{
    match place_of(profile, frn) {
        None => 0,
        Some(place) => t[place.index] as usize,
    }
}

// A table that is lent, whosever it is. A word says nothing that the item at its place does not have.
#[derive(Clone, Copy)]
pub struct Steps<'a> {
    pub words: &'a StepTable,
    pub ghost sound: { sound_steps words.now ≡ true },
}

impl Steps<'_> {
    // The table of this library, which says besides how many octets each item has whose first octet tells.
    pub fn new() -> Steps<'static>
        ensures { exact_steps result.words.now ≡ true }
    {
        Steps { words: &WORDS }
    }

    fn word_at(&self, at: usize) -> usize
        requires { at < step_count }
        ensures { result ≡ get_or self.now.words.now at 0 }
    {
        self.words[at] as usize
    }

    // The same by the table that is lent.
    pub fn word_of(&self, profile: usize, frn: usize) -> usize
        ensures { result ≡ word_for self.now.words.now profile frn }
    {
        word_of(self.words, profile, frn)
    }

    // Whether a number of three octets obeys the rule at a row.
    fn is_asked(&self, rule: usize, n: usize) -> bool
        requires { (rule < rule_rows) × (n < 2 ^ 24) }
        ensures { result ≡ asked self.now.words.now rule n }
    {
        is_kept(self.word_at(LOWS + rule), self.word_at(HIGHS + rule), n)
    }

    // ---- an item by the word of its place

    // One free part.
    fn free_size(&self, place: Place, part: &[u8]) -> Option<usize>
        requires { (get_or self.now.words.now place.index 0 < 8) × (sound_free (get_or self.now.words.now place.index 0) (layout_at (place_row_at place.index).layout) ≡ true) }
        ensures { Plainly result (whole_size (layout_at (place_row_at place.index).layout) part.now) }
    {
        let size = self.word_at(place.index);
        if size == 0 {
            return None;
        }
        if part.len() < size {
            return None;
        }
        Some(size)
    }

    // One part with a rule.
    fn ruled_size(&self, place: Place, part: &[u8]) -> Option<usize>
        requires { (1 ≤ length part.now) × (sound_ruled self.now.words.now (get_or self.now.words.now place.index 0) (layout_at (place_row_at place.index).layout) ≡ true) }
        ensures { Plainly result (whole_size (layout_at (place_row_at place.index).layout) part.now) }
    {
        let w = self.word_at(place.index);
        let size = w % 16;
        if part.len() < size {
            return None;
        }
        if self.is_asked(w / 4096 % RULES, first_three(part)) {
            return Some(size);
        }
        None
    }

    // A count octet and free parts, or a length octet and contents.
    fn counted_size(&self, place: Place, part: &[u8]) -> Option<usize>
        requires { (1 ≤ length part.now) × (sound_counted (get_or self.now.words.now place.index 0) (layout_at (place_row_at place.index).layout) ≡ true) }
        ensures { Plainly result (whole_size (layout_at (place_row_at place.index).layout) part.now) }
    {
        let w = self.word_at(place.index);
        let n = octet(part[0]);
        if n < w / 4096 % 16 {
            return None;
        }
        let size = w % 16 + n * (w / 16 % 16);
        if part.len() < size {
            return None;
        }
        Some(size)
    }

    // Parts as far as FX bits say, of one octet each and at most two.
    fn extended_size(&self, place: Place, part: &[u8]) -> Option<usize>
        requires { (1 ≤ length part.now) × (sound_extended self.now.words.now (get_or self.now.words.now place.index 0) (layout_at (place_row_at place.index).layout) ≡ true) }
        ensures { Plainly result (whole_size (layout_at (place_row_at place.index).layout) part.now) }
    {
        let w = self.word_at(place.index);
        if !self.is_asked(w / 4096 % RULES, first_three(part)) {
            return None;
        }
        if part[0] % 2 == 0 {
            return Some(1);
        }
        if part.len() < 2 {
            return None;
        }
        if part[1] % 2 != 0 {
            return None;
        }
        if self.is_asked((w / 4096 + 1) % RULES, first_three(&part[1..])) {
            return Some(2);
        }
        None
    }

    // One part with two rules.
    fn twice_size(&self, place: Place, part: &[u8]) -> Option<usize>
        requires { (1 ≤ length part.now) × (sound_twice self.now.words.now (get_or self.now.words.now place.index 0) (layout_at (place_row_at place.index).layout) ≡ true) }
        ensures { Plainly result (whole_size (layout_at (place_row_at place.index).layout) part.now) }
    {
        let w = self.word_at(place.index);
        let size = w % 16;
        if part.len() < size {
            return None;
        }
        let n = first_three(part);
        if !self.is_asked(w / 4096 % RULES, n) {
            return None;
        }
        if self.is_asked((w / 4096 + 1) % RULES, n) {
            return Some(size);
        }
        None
    }

    // How many octets the item at a place of the tables takes, where it is plainly legal: as most items are, in one part, or a count or length octet and
    // free parts. Short, so that it is compiled into both loops over a record's items.
    fn told_at(&self, place: Place, part: &[u8]) -> Option<usize>
        ensures { Plainly result (whole_size (layout_at (place_row_at place.index).layout) part.now) }
    {
        let w = self.word_at(place.index);
        if w < 8 {
            return self.free_size(place, part);
        }
        if part.len() < 1 {
            return None;
        }
        match kind_of(w) {
            Kind::Counted => self.counted_size(place, part),
            Kind::Ruled => self.ruled_size(place, part),
            _ => None,
        }
    }

    // The same, of any item.
    fn quick_at(&self, place: Place, part: &[u8]) -> Option<usize>
        ensures { Plainly result (whole_size (layout_at (place_row_at place.index).layout) part.now) }
    {
        let told = self.told_at(place, part);
        if told.is_some() {
            return told;
        }
        if part.len() < 1 {
            return None;
        }
        match kind_of(self.word_at(place.index)) {
            Kind::Extended => self.extended_size(place, part),
            Kind::Twice => self.twice_size(place, part),
            _ => None,
        }
    }

    // How many octets the item of a profile at an FRN takes, which starts the part, where it is plainly legal.
    pub fn quick_item(&self, profile: usize, frn: usize, part: &[u8]) -> Option<usize>
        ensures { Plainly result (check_at profile frn part.now) }
    {
        let place = place_of(profile, frn)?;
        self.quick_at(place, part)
    }

    // The same of an item as most are, for who checks one record at a time: `quick_item` has one caller, into whose loop it is compiled.
    pub fn told_item(&self, profile: usize, frn: usize, part: &[u8]) -> Option<usize>
        ensures { Plainly result (check_at profile frn part.now) }
    {
        let place = place_of(profile, frn)?;
        self.told_at(place, part)
    }
}
