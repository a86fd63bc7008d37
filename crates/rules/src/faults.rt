// Why bytes, or what a call asks, are refused. The numbers are those of document 01, "Refusal numbers and their order"; from `OffsetRange` on those of
// document 02, W-201, W-203 and W-208.
ghost use Rattle.std.specs.Prelude.{◌≡◌, ◌+◌, ◌<◌, ◌^◌};
ghost use Rattle.rules.specs.Told.{number_of, moved};

#[derive(Clone, Copy, Debug, PartialEq, Eq)]
pub enum Fault {
    // ---- a block
    HeadCut = 1,
    CategoryUnknown = 2,
    LengthWrong = 3,
    BlockEmpty = 4,
    // ---- an FSPEC, or the primary octets of a compound item
    FspecCut = 5,
    FxPastEnd = 6,
    NothingNamed = 7,
    NotUsable = 8,
    // ---- an item
    ItemCut = 9,
    LengthTooSmall = 10,
    FieldBarred = 11,
    // ---- a record, by its message type
    TypeAbsent = 12,
    TypeUnknown = 13,
    ItemMissing = 14,
    ItemNotSent = 15,
    // ---- what a call asks
    NoRoom = 16,
    BlockTooLong = 17,
    BytesLeft = 18,
    RecordNotThere = 19,
    ItemNotThere = 20,
    ReferenceUnknown = 21,
    // ---- two logs
    OffsetRange = 22,
    PlaceInside = 23,
    // ---- a sheet
    SheetCut = 30,
    TagWrong = 31,
    BodyLength = 32,
    ValueBarred = 33,
    TooManyMarks = 34,
    MarkTaken = 35,
    MarkNotThere = 36,
    TotalsDiffer = 37,
}

impl Fault {
    // Its number in the documents.
    pub fn number(self) -> u8
        ensures { result ≡ number_of self }
    {
        self as u8
    }

    pub fn at(self, place: usize) -> Refusal
        ensures is { result.fault ≡ self }
        ensures place { result.place ≡ place }
    {
        Refusal { fault: self, place }
    }
}

// What is at fault, and where: a place that counts from the start of what was asked about.
#[derive(Clone, Copy, Debug, PartialEq, Eq)]
pub struct Refusal {
    pub fault: Fault,
    pub place: usize,
}

impl Refusal {
    // The same, counted from so many octets before.
    pub fn later(self, by: usize) -> Refusal
        requires { by + self.place < 2 ^ 64 }
        ensures { result ≡ moved by self }
    {
        Refusal {
            fault: self.fault,
            place: by + self.place,
        }
    }
}

// At the start.
impl From<Fault> for Refusal {
    ghost from_gives = { λ f r. (r.fault ≡ f) × (r.place ≡ 0) };

    fn from(fault: Fault) -> Refusal {
        fault.at(0)
    }
}
