// The text of a line: a sentence for each pair at its first split, in pair order. One loop counts its bytes, and writes
// them where there is room.
ghost use Rattle.std.specs.Prelude.{◌-◌, ◌^◌, ◌<◌, ◌≡◌};
ghost use Rattle.argument.specs.Record.{record_size, field};
ghost use Rattle.endian.specs.Bytes.{whole16, whole32};
ghost use Rattle.marks.specs.Packed.{marks_of};
ghost use Rattle.sentences.specs.Sentence.{sentence, sentence_bytes};
ghost use Rattle.sentences.specs.asks.Sentence.{reason_of};
ghost use Rattle.reasons.specs.asks.PairReason.{PairAsked};
ghost use Rattle.reasons.specs.asks.LineText.{FittedWithin, most_text, ToldAt, outcomes_of, split_text, TextAsked, EdgeAsked, EdgeTold};

use crate::pair::pair_outcome;
use endian::bytes::{Number, count_of};
use lengths::edge;
use lengths::edge::{NextEdge, following};
use sentences::reason::{Pair, Reason};
use sentences::sentence::{put_sentence, sentence_length};
use sheets::sheet::Sheet;

// The number of a record that has the split point of a line or a case.
pub const POINT: usize = 5;

// The number that has the first case of a line's or a case's split.
pub const FIRST: usize = 6;

// The number that has the index of the next case.
const NEXT: usize = 7;

// What is told of a pair, and the record that is then the case of the next standing pair.
#[derive(Drop)]
pub struct ToldPair {
    pub reason: Reason,
    pub case: u16,
}

// Where the text goes on, and the case of the next standing pair.
#[derive(Drop)]
pub struct TextPosition {
    pub at: usize,
    pub case: u16,
}

// How many records stand before record i; before 0 none.
fn records_before(i: u16) -> usize
    ensures { result ≡ i - 1 }
{
    i.saturating_sub(1) as usize
}

// Number f of record i, 0 where the sheet has no such record: the definition `field` asks that, and `Sheet::record` reads
// only what is there.
pub fn field(sheet: &[u8], i: u16, f: usize) -> u16
    requires { f < record_size }
    ensures { result ≡ field (whole16 sheet.now) i f }
{
    let at = records_before(i) * Sheet::RECORD_SIZE + f;
    if count_of::<u16>(sheet) <= at {
        return 0;
    }
    u16::number(sheet, at)
}

// What is told of the pair x, y, where record i is the case of the next standing pair.
fn tell_pair(
    n: u16,
    table: &[u8],
    marks: &[u8],
    sheet: &[u8],
    a: u16,
    b: u16,
    c: u16,
    x: u16,
    y: u16,
    i: u16,
) -> ToldPair
    requires { PairAsked n (whole32 table.now) (marks_of n marks.now) a b c x y }
    ensures { ToldAt (outcomes_of n (whole32 table.now) (marks_of n marks.now) a b c x y)
        (whole16 sheet.now) i result }
{
    match pair_outcome(n, table, marks, a, b, c, x, y) {
        Some(reason) => ToldPair {
            reason: reason,
            case: i,
        },
        None => ToldPair {
            reason: Reason::Split(field(sheet, i, POINT)),
            case: field(sheet, i, NEXT),
        },
    }
}

// Writes the sentence of a reason where there is room for it; the next place in any case.
fn put_fitting(pair: Pair, reason: Reason, text: &mut [u8], at: usize) -> usize
    requires { at < 2 ^ 40 }
    ensures { FittedWithin sentence_bytes text.old at (sentence pair.c pair.x pair.y (reason_of reason)) result text.new }
{
    let end = at + sentence_length(pair, reason);
    if text.len() < end {
        return end;
    }
    put_sentence(pair, reason, text, at)
}

// Tells the edge xy: an edge of c is no pair.
fn tell_edge(
    n: u16,
    table: &[u8],
    marks: &[u8],
    sheet: &[u8],
    a: u16,
    b: u16,
    c: u16,
    x: u16,
    y: u16,
    i: u16,
    text: &mut [u8],
    at: usize,
) -> TextPosition
    requires { EdgeAsked n (whole32 table.now) (marks_of n marks.now) a b c x y at }
    ensures { EdgeTold (outcomes_of n (whole32 table.now) (marks_of n marks.now) a b c) (whole16 sheet.now)
        c i x y text.old at result text.new }
{
    if x == c || y == c {
        return TextPosition { at: at, case: i };
    }
    let told = tell_pair(n, table, marks, sheet, a, b, c, x, y, i);
    TextPosition {
        at: put_fitting(Pair { c, x, y }, told.reason, text, at),
        case: told.case,
    }
}

// Writes the text of a split, whose first case is the record `first`, where the buffer has room for all of it; its
// length in any case.
pub fn put_text(
    n: u16,
    table: &[u8],
    marks: &[u8],
    sheet: &[u8],
    a: u16,
    b: u16,
    c: u16,
    first: u16,
    text: &mut [u8],
) -> usize
    requires { TextAsked n (whole32 table.now) (marks_of n marks.now) a b c }
    ensures { FittedWithin most_text text.old 0
        (split_text n (whole32 table.now) (marks_of n marks.now) (whole16 sheet.now) a b c first)
        result text.new }
{
    let points = n as usize;
    let mut edge = NextEdge { low: 1, high: 2 };
    let mut spot = TextPosition { at: 0, case: first };
    for _ in 0..edge::count(n) {
        spot = tell_edge(
            n,
            table,
            marks,
            sheet,
            a,
            b,
            c,
            edge.low as u16,
            edge.high as u16,
            spot.case,
            text,
            spot.at,
        );
        edge = following(points, edge.low, edge.high);
    }
    spot.at
}
