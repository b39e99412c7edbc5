// The sentence of a reason, written at a place, with the next place as the answer; and how many bytes it has.
ghost use Rattle.std.specs.Prelude.{◌++◌};
ghost use Rattle.text.specs.Words.{Room, Wrote};
ghost use Rattle.text.specs.Decimal.{field_text};
ghost use Rattle.sentences.specs.Reason.{struck, loop, exchange, move};
ghost use Rattle.sentences.specs.Sentence.{pair_text, sentence};
ghost use Rattle.sentences.specs.asks.Sentence.{reason_of, edge_text, point_digits, saved_digits, DigitsIs, ThreeDigitsIs, LengthIs};

use crate::reason::{Pair, Reason};
use text::columns::digit_count;
use text::decimal::put_field;
use text::words::put_word;

// How many bytes of a sentence are words, by its reason.
const STRUCK_WORDS: usize = 49;

const THIRD_WORDS: usize = 50;

const LOOP_WORDS: usize = 43;

const EXCHANGE_WORDS: usize = 65;

const MOVE_WORDS: usize = 68;

const SPLIT_WORDS: usize = 51;

// Writes the end of a sentence, behind the word that says what becomes of the pair.
fn put_pair(becomes: &[u8], pair: Pair, out: &mut [u8], at: usize) -> usize
    requires { Room out.old at (pair_text becomes.now pair.c pair.x pair.y) }
    ensures { Wrote out.old at (pair_text becomes.now pair.c pair.x pair.y) result out.new }
{
    let mut next = put_field(becomes, pair.x as u32, out, at);
    next = put_field(b" and ", pair.y as u32, out, next);
    next = put_field(b" as neighbours of ", pair.c as u32, out, next);
    put_word(b".\n", out, next)
}

// Writes an edge behind a word.
fn put_edge(word: &[u8], p: u16, q: u16, out: &mut [u8], at: usize) -> usize
    requires { Room out.old at (edge_text word.now p q) }
    ensures { Wrote out.old at (edge_text word.now p q) result out.new }
{
    let next = put_field(word, p as u32, out, at);
    put_field(b"-", q as u32, out, next)
}

// Writes a sentence of one point.
fn put_point(word: &[u8], w: u16, becomes: &[u8], pair: Pair, out: &mut [u8], at: usize) -> usize
    requires { Room out.old at (field_text word.now w ++ pair_text becomes.now pair.c pair.x pair.y) }
    ensures { Wrote out.old at (field_text word.now w ++ pair_text becomes.now pair.c pair.x pair.y) result out.new }
{
    let next = put_field(word, w as u32, out, at);
    put_pair(becomes, pair, out, next)
}

// Writes that the edge pq is not open.
fn put_struck(pair: Pair, p: u16, q: u16, out: &mut [u8], at: usize) -> usize
    requires { Room out.old at (sentence pair.c pair.x pair.y (struck p q)) }
    ensures { Wrote out.old at (sentence pair.c pair.x pair.y (struck p q)) result out.new }
{
    let next = put_edge(b"Struck edge ", p, q, out, at);
    put_pair(b" shuts out ", pair, out, next)
}

// Writes that three points are closed to a loop.
fn put_loop(pair: Pair, p: u16, q: u16, r: u16, out: &mut [u8], at: usize) -> usize
    requires { Room out.old at (sentence pair.c pair.x pair.y (loop p q r)) }
    ensures { Wrote out.old at (sentence pair.c pair.x pair.y (loop p q r)) result out.new }
{
    let mut next = put_edge(b"Loop ", p, q, out, at);
    next = put_field(b"-", r as u32, out, next);
    put_pair(b" shuts out ", pair, out, next)
}

// Writes that exchanging two edges saves.
fn put_exchange(
    pair: Pair,
    p: u16,
    q: u16,
    u: u16,
    v: u16,
    saved: u32,
    out: &mut [u8],
    at: usize,
) -> usize
    requires { Room out.old at (sentence pair.c pair.x pair.y (exchange p q u v saved)) }
    ensures { Wrote out.old at (sentence pair.c pair.x pair.y (exchange p q u v saved)) result out.new }
{
    let mut next = put_edge(b"Exchanging ", p, q, out, at);
    next = put_field(b" and ", u as u32, out, next);
    next = put_field(b"-", v as u32, out, next);
    next = put_field(b" saves ", saved, out, next);
    put_pair(b" and shuts out ", pair, out, next)
}

// Writes that moving a point saves.
fn put_move(pair: Pair, w: u16, u: u16, v: u16, saved: u32, out: &mut [u8], at: usize) -> usize
    requires { Room out.old at (sentence pair.c pair.x pair.y (move w u v saved)) }
    ensures { Wrote out.old at (sentence pair.c pair.x pair.y (move w u v saved)) result out.new }
{
    let mut next = put_field(b"Moving ", w as u32, out, at);
    next = put_field(b" between ", u as u32, out, next);
    next = put_field(b" and ", v as u32, out, next);
    next = put_field(b" saves ", saved, out, next);
    put_pair(b" and shuts out ", pair, out, next)
}

// Writes the sentence of a reason for a pair.
pub fn put_sentence(pair: Pair, reason: Reason, out: &mut [u8], at: usize) -> usize
    requires { Room out.old at (sentence pair.c pair.x pair.y (reason_of reason)) }
    ensures { Wrote out.old at (sentence pair.c pair.x pair.y (reason_of reason)) result out.new }
{
    match reason {
        Reason::Struck { p, q } => put_struck(pair, p, q, out, at),
        Reason::Third(w) => put_point(b"Third edge at ", w, b" shuts out ", pair, out, at),
        Reason::Loop { p, q, r } => put_loop(pair, p, q, r, out, at),
        Reason::Exchange { p, q, u, v, saved } => put_exchange(pair, p, q, u, v, saved, out, at),
        Reason::Move { w, u, v, saved } => put_move(pair, w, u, v, saved, out, at),
        Reason::Split(w) => put_point(b"Further split at ", w, b" settles ", pair, out, at),
    }
}

// How many digits a point has.
fn point_digits(p: u16) -> usize
    ensures { DigitsIs point_digits p result }
{
    digit_count(p as u32)
}

// How many digits three points have together.
fn three_digits(p: u16, q: u16, w: u16) -> usize
    ensures { ThreeDigitsIs p q w result }
{
    point_digits(p) + point_digits(q) + point_digits(w)
}

// How many digits a saving has.
fn saved_digits(saved: u32) -> usize
    ensures { DigitsIs saved_digits saved result }
{
    digit_count(saved)
}

// How many bytes the sentence of a reason has.
pub fn sentence_length(pair: Pair, reason: Reason) -> usize
    ensures { LengthIs (sentence pair.c pair.x pair.y (reason_of reason)) result }
{
    let digits = three_digits(pair.x, pair.y, pair.c);
    match reason {
        Reason::Struck { p, q } => STRUCK_WORDS + digits + point_digits(p) + point_digits(q),
        Reason::Third(w) => THIRD_WORDS + digits + point_digits(w),
        Reason::Loop { p, q, r } => LOOP_WORDS + digits + three_digits(p, q, r),
        Reason::Exchange { p, q, u, v, saved } => EXCHANGE_WORDS
            + digits
            + three_digits(p, q, u)
            + point_digits(v)
            + saved_digits(saved),
        Reason::Move { w, u, v, saved } => MOVE_WORDS
            + digits
            + three_digits(w, u, v)
            + saved_digits(saved),
        Reason::Split(w) => SPLIT_WORDS + digits + point_digits(w),
    }
}
