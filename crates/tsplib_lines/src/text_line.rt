// One line of a TSPLIB text: a keyword with its value, a section's name, EOF, numbers, or none of these.
ghost use Rattle.std.specs.Prelude.{◌≡◌};
ghost use Rattle.tsplib_lines.specs.TextLine.{keyword_of, weighing_of, section_of, dimension_of, valued, parts_line, at_colon};
ghost use Rattle.tsplib_lines.specs.TextLine.{line_of, told_of, weighing_line, only_as, named};
ghost use Rattle.tsplib_lines.specs.Numbers.{numbers_in};

use crate::numbers::{Tally, numbers_of};
use crate::words;
use crate::words::{find, is_sole};

// How edges are weighed: by the lengths that the text gives, or by a rule of *measure*, which takes the rule's number
// and tests it behind 1 and 2.
#[derive(Clone, Copy, PartialEq, Eq)]
pub enum Weighing {
    Explicit,
    Rule(u32),
}

#[derive(Clone, Copy, PartialEq, Eq)]
pub enum Keyword {
    Name,
    Comment,
    Type,
    Dimension,
    WeightType,
    WeightFormat,
}

#[derive(Clone, Copy)]
pub enum TalliedLine {
    Name,
    Comment,
    Type,
    Dimension(u32),
    WeightType(Weighing),
    WeightFormat,
    NodeSection,
    WeightSection,
    Eof,
    Numbers(Tally),
    Other,
}

// What the word stands for that the text is by itself, among words with what each stands for.
fn named<T: Copy>(text: &[u8], names: &[(&[u8], T)]) -> Option<T>
    ensures { result ≡ named text.now names.now }
{
    for (word, meaning) in names {
        if is_sole(text, word) {
            return Some(*meaning);
        }
    }
    None
}

const KEYWORDS: [(&[u8], Keyword); 6] = [
    (b"NAME", Keyword::Name),
    (b"COMMENT", Keyword::Comment),
    (b"TYPE", Keyword::Type),
    (b"DIMENSION", Keyword::Dimension),
    (b"EDGE_WEIGHT_TYPE", Keyword::WeightType),
    (b"EDGE_WEIGHT_FORMAT", Keyword::WeightFormat),
];

// The keyword that stands before the colon.
fn keyword_of(text: &[u8]) -> Option<Keyword>
    ensures { result ≡ keyword_of text.now }
{
    named(text, &KEYWORDS)
}

const WEIGHINGS: [(&[u8], Weighing); 6] = [
    (b"EXPLICIT", Weighing::Explicit),
    (b"EUC_2D", Weighing::Rule(1)),
    (b"CEIL_2D", Weighing::Rule(2)),
    (b"ATT", Weighing::Rule(3)),
    (b"MAN_2D", Weighing::Rule(4)),
    (b"MAX_2D", Weighing::Rule(5)),
];

// The value of EDGE_WEIGHT_TYPE.
fn weighing_of(text: &[u8]) -> Option<Weighing>
    ensures { result ≡ weighing_of text.now }
{
    named(text, &WEIGHINGS)
}

const SECTIONS: [(&[u8], TalliedLine); 3] = [
    (b"NODE_COORD_SECTION", TalliedLine::NodeSection),
    (b"EDGE_WEIGHT_SECTION", TalliedLine::WeightSection),
    (b"EOF", TalliedLine::Eof),
];

// A line without a colon: a section's name or EOF.
fn section(text: &[u8]) -> TalliedLine
    ensures { result ≡ told_of (section_of text.now) }
{
    named(text, &SECTIONS).unwrap_or(TalliedLine::Other)
}

// The value of DIMENSION: one number.
fn dimension(value: &[u8]) -> TalliedLine
    ensures { result ≡ told_of (dimension_of (numbers_in value.now)) }
{
    match numbers_of(value) {
        Some(tally) if tally.count == 1 => TalliedLine::Dimension(tally.first),
        _ => TalliedLine::Other,
    }
}

// EDGE_WEIGHT_TYPE with its value.
fn weight_type(value: &[u8]) -> TalliedLine
    ensures { result ≡ told_of (weighing_line (weighing_of value.now)) }
{
    match weighing_of(value) {
        Some(weighing) => TalliedLine::WeightType(weighing),
        None => TalliedLine::Other,
    }
}

// The line where the value is the one word that it may be.
fn only(value: &[u8], word: &[u8], line: TalliedLine) -> TalliedLine
    ensures { result ≡ only_as word.now value.now line }
{
    if is_sole(value, word) {
        line
    } else {
        TalliedLine::Other
    }
}

// A keyword with its value.
fn valued_line(key: Keyword, value: &[u8]) -> TalliedLine
    ensures { result ≡ told_of (valued key value.now) }
{
    match key {
        Keyword::Name => TalliedLine::Name,
        Keyword::Comment => TalliedLine::Comment,
        Keyword::Type => only(value, b"TSP", TalliedLine::Type),
        Keyword::Dimension => dimension(value),
        Keyword::WeightType => weight_type(value),
        Keyword::WeightFormat => only(value, b"UPPER_ROW", TalliedLine::WeightFormat),
    }
}

// A line that is no numbers: its first colon ends the keyword.
fn word_line(text: &[u8]) -> TalliedLine
    ensures { result ≡ told_of (parts_line (at_colon text.now) text.now) }
{
    let Some(at) = find(text, words::COLON) else {
        return section(text);
    };
    match keyword_of(&text[..at]) {
        Some(key) => valued_line(key, &text[at + 1..]),
        None => TalliedLine::Other,
    }
}

// What a line's bytes are.
pub fn read_line(text: &[u8]) -> TalliedLine
    ensures { result ≡ told_of (line_of text.now) }
{
    match numbers_of(text) {
        Some(tally) => TalliedLine::Numbers(tally),
        None => word_line(text),
    }
}
