// The refusals of 01, and the record at fault.
ghost use Rattle.std.specs.Prelude.{◌≡◌};
ghost use Rattle.lengths.specs.Refusal.{refusal_number, refused_at, at_call};

// What an operation is refused for, in the order of 01's numbers: the first is 1.
#[derive(Clone, Copy, Debug, PartialEq, Eq)]
pub enum Refusal {
    Points = 1,
    Size,
    Rule,
    Coordinate,
    Length,
    Marks,
    Sheet,
    IndexAbove,
    IndexNotAbove,
    Kind,
    Point,
    Struck,
    SeventhSplit,
    Pair,
    Crossing,
    Saving,
    Tour,
    List,
    Text,
    SomethingPending,
    NothingPending,
    Buffer,
    NoSegment,
    NotShorter,
    Limits,
    Page,
    PageText,
    Desk,
    DeskBusy,
}

// The record of a refusal where no record is at fault.
pub const NO_RECORD: u16 = 0;

// A refusal, and the record at fault.
#[derive(Clone, Copy, Debug, PartialEq, Eq)]
pub struct Refused {
    pub refusal: Refusal,
    pub at: u16,
}

impl Refusal {
    // Its number in 01.
    pub fn number(self) -> u8
        ensures { result ≡ refusal_number self }
    {
        self as u8
    }

    // This refusal, for this record.
    pub fn at(self, at: u16) -> Refused
        ensures { result ≡ refused_at self at }
    {
        Refused { refusal: self, at }
    }
}

// A refusal of a call as a whole: no record is at fault.
impl From<Refusal> for Refused {
    ghost from_gives = { λ refusal refused. refused ≡ at_call refusal };

    fn from(refusal: Refusal) -> Refused {
        refusal.at(NO_RECORD)
    }
}
