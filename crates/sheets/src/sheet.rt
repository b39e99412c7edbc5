// Sheets and their records: 01's "The sheet". A sheet is 16-bit numbers as little-endian bytes.
ghost use Rattle.std.specs.Prelude.{◌≡◌};
ghost use Rattle.endian.specs.Bytes.{whole16};
ghost use Rattle.sheets.specs.Sheet.{Readable};
ghost use Rattle.sheets.specs.asks.Sheet.{sheet_admission, index_tested, record_of};
ghost use Rattle.argument.specs.Record.{content, record_at};

use endian::bytes::Number;
use lengths::refusal::{Refusal, Refused};

// A sheet, which is a certificate of edge eliminations: 1 to MOST_RECORDS whole records.
#[derive(Clone, Copy)]
pub struct Sheet {
    pub records: u16,
}

// A split is a branching on the two edges that a tour has at a point.
// How a case is closed: by a split at a point whose first case is the record `first`, by 3-opt, or by a
// new order of the segment from u to v, whose first point the record `first` names (02, Paper 10: a stretch).
#[derive(Clone, Copy)]
pub enum Closing {
    Split { point: u16, first: u16 },
    ThreeOpt { p: u16, q: u16, r: u16, s: u16 },
    Reorder { u: u16, v: u16, first: u16 },
}

// A case, one branch of a split: its pair, its closing and the index of the next case.
#[derive(Clone, Copy)]
pub struct Case {
    pub a: u16,
    pub b: u16,
    pub closing: Closing,
    pub next: u16,
}

// A line is the elimination of one edge.
// A line: strike ab by a split at a point whose first case is the record `first`; the index of the next line.
#[derive(Clone, Copy)]
pub struct Line {
    pub a: u16,
    pub b: u16,
    pub point: u16,
    pub first: u16,
    pub next: u16,
}

// A point of a new order, and the index of the next.
#[derive(Clone, Copy)]
pub struct Visit {
    pub point: u16,
    pub next: u16,
}

// What a record is. `Other` is a record of no kind, or one with a field that should be 0 and is not.
#[derive(Clone, Copy)]
pub enum Record {
    Line(Line),
    Case(Case),
    Visit(Visit),
    Other,
}

impl Sheet {
    pub const MOST_RECORDS: usize = 4000;

    pub const MOST_SPLITS: u16 = 6;
    // How many numbers a record has.
    pub const RECORD_SIZE: usize = 8;

    pub const MOST_NUMBERS: usize = Sheet::MOST_RECORDS * Sheet::RECORD_SIZE;

    // The sheet of so many numbers, where they are 1 to MOST_RECORDS whole records: test 7.
    #[tactic(auto, unfolding(crate::specs::asks::Sheet::sheet_admission, crate::specs::Sheet::whole_sheet))]
    pub fn admit(numbers: usize) -> Result<Sheet, Refusal>
        ensures { result ≡ sheet_admission numbers }
    {
        if numbers == 0 || numbers % Sheet::RECORD_SIZE != 0 || Sheet::MOST_NUMBERS < numbers {
            return Err(Refusal::Sheet);
        }
        Ok(Sheet {
            records: (numbers / Sheet::RECORD_SIZE) as u16,
        })
    }

    // Tests 8 and 9 of an index that the record `last` has, in a sheet of `count` records; `high` is the highest record
    // entered.
    #[tactic(auto, unfolding(crate::specs::asks::Sheet::index_tested))]
    pub fn test_index(count: u16, last: u16, index: u16, high: u16) -> Result<(), Refused>
        ensures { result ≡ index_tested count last index high }
    {
        if count < index {
            return Err(Refusal::IndexAbove.at(last));
        }
        if index <= high {
            return Err(Refusal::IndexNotAbove.at(last));
        }
        Ok(())
    }

    // The record i of a sheet, whose records are numbered from 1.
    #[tactic(auto, unfolding(argument::specs::Record::records, argument::specs::Record::record_at, argument::specs::Record::field))]
    pub fn record(sheet: &[u8], i: u16) -> Record
        requires { Readable (whole16 sheet.now) i }
        ensures { record_of result ≡ record_at (whole16 sheet.now) i }
    {
        let at = (i as usize - 1) * Sheet::RECORD_SIZE;
        Record::from_numbers(
            u16::number(sheet, at),
            u16::number(sheet, at + 1),
            u16::number(sheet, at + 2),
            u16::number(sheet, at + 3),
            u16::number(sheet, at + 4),
            u16::number(sheet, at + 5),
            u16::number(sheet, at + 6),
            u16::number(sheet, at + 7),
        )
    }
}

impl Record {
    // The record that eight numbers are, by its kind; 02, Paper 10, has kinds 4 and 5.
    #[tactic(auto, unfolding(argument::specs::Record::content, argument::specs::Record::bare))]
    fn from_numbers(kind: u16, a: u16, b: u16, u: u16, v: u16, c: u16, d: u16, next: u16) -> Record
        ensures { record_of result ≡ content kind a b u v c d next }
    {
        let closing = match (kind, u, v, c) {
            (1, 0, 0, _) => {
                return Record::Line(Line {
                    a,
                    b,
                    point: c,
                    first: d,
                    next,
                });
            }
            (2, 0, 0, _) => Closing::Split { point: c, first: d },
            (3, _, _, _) => Closing::ThreeOpt {
                p: u,
                q: v,
                r: c,
                s: d,
            },
            (4, _, _, 0) => Closing::Reorder { u, v, first: d },
            (5, 0, 0, 0) if b == 0 && d == 0 => return Record::Visit(Visit { point: a, next }),
            _ => return Record::Other,
        };
        Record::Case(Case {
            a,
            b,
            closing,
            next,
        })
    }
}
