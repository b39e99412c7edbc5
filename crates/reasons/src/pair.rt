// What becomes of a pair x < y at the split point c under K = {ab} (02, Paper 6): 01's tests in their order, each with
// its reason; none, where the pair stands.
ghost use Rattle.std.specs.Prelude.{min, max, ◌^◌, ◌<◌, ◌&&◌, ◌≡◌, ltb};
ghost use Rattle.std.specs.Int.Signed.{mag};
ghost use Rattle.endian.specs.Bytes.{whole32};
ghost use Rattle.lengths.specs.Table.{length_of};
ghost use Rattle.marks.specs.Mark.{open_in};
ghost use Rattle.marks.specs.Packed.{marks_of};
ghost use Rattle.rules.specs.Pair.{exchange_saving};
ghost use Rattle.sentences.specs.Reason as why;
ghost use Rattle.sentences.specs.asks.Sentence.{reason_of};
ghost use Rattle.reasons.specs.PairReason.{end?, struck_at, third?, loop_of, pair_outcome};
ghost use Rattle.reasons.specs.asks.PairReason.{outcome_of, gained, exchanged, moved, move_outcome, saving_outcome};
ghost use Rattle.reasons.specs.asks.PairReason.{ExchangeAsked, SavingAsked, PairAsked};

use lengths::two_tables::Tables;
use marks::mark;
use marks::mark::is_open;
use rules::saving::{exchange_saving, move_saving};
use sentences::reason::Reason;

// Is p an end of ab?
fn is_end(a: u16, b: u16, p: u16) -> bool
    ensures { result ≡ end? a b p }
{
    p == a || p == b
}

// A saving above 0, as a plain number.
fn gain(saving: i64) -> Option<u32>
    requires { mag saving < 2 ^ 32 }
    ensures { result ≡ gained saving }
{
    if saving > 0 {
        Some(saving as u32)
    } else {
        None
    }
}

// The leg cz is not open.
fn struck_leg(c: u16, z: u16) -> Reason
    ensures { reason_of result ≡ struck_at c z }
{
    Reason::Struck {
        p: c.min(z),
        q: c.max(z),
    }
}

// Does c get a third edge?
fn has_third(a: u16, b: u16, c: u16, x: u16, y: u16) -> bool
    ensures { result ≡ third? a b c x y }
{
    is_end(a, b, c) && !(is_end(a, b, x) || is_end(a, b, y))
}

// The loop of ab and c, its points rising.
fn loop_of(a: u16, b: u16, c: u16) -> Reason
    ensures { reason_of result ≡ loop_of a b c }
{
    let low = a.min(b);
    let high = a.max(b);
    Reason::Loop {
        p: c.min(low),
        q: low.max(c.min(high)),
        r: c.max(high),
    }
}

// How much the exchange of cz and ab saves, where it does.
fn exchange_gain(n: u16, table: &[u8], a: u16, b: u16, c: u16, z: u16) -> Option<u32>
    requires { ExchangeAsked n (whole32 table.now) a b c z }
    ensures { result ≡ gained (exchange_saving (length_of n (whole32 table.now)) (length_of n (whole32 table.now)) c z a b) }
{
    let tables = Tables {
        n,
        out: table,
        put: table,
    };
    gain(exchange_saving(tables, c, z, a, b))
}

// The exchange of cz, the pair's edge, and ab saves.
fn exchange_of(a: u16, b: u16, c: u16, z: u16, saved: u32) -> Reason
    ensures { reason_of result ≡ exchanged a b c z saved }
{
    Reason::Exchange {
        p: c.min(z),
        q: c.max(z),
        u: a.min(b),
        v: a.max(b),
        saved: saved,
    }
}

// Moving w to between u and v saves.
fn move_to(w: u16, u: u16, v: u16, saved: u32) -> Reason
    ensures { reason_of result ≡ why.move w (min u v) (max u v) saved }
{
    Reason::Move {
        w: w,
        u: u.min(v),
        v: u.max(v),
        saved: saved,
    }
}

// Is z an end of ab, and below c?
fn is_low_end(a: u16, b: u16, c: u16, z: u16) -> bool
    ensures { result ≡ end? a b z && ltb z c }
{
    is_end(a, b, z) && z < c
}

// The lowest point that moves: an end of ab in the pair that is below c, else c.
fn move_of(a: u16, b: u16, c: u16, x: u16, y: u16, saved: u32) -> Reason
    ensures { reason_of result ≡ moved a b c x y saved }
{
    if is_low_end(a, b, c, x) {
        return move_to(x, c, y, saved);
    }
    if is_low_end(a, b, c, y) {
        return move_to(y, c, x, saved);
    }
    move_to(c, a, b, saved)
}

// Test 5: a point moves, or the pair stands.
fn move_outcome(n: u16, table: &[u8], a: u16, b: u16, c: u16, x: u16, y: u16) -> Option<Reason>
    requires { SavingAsked n (whole32 table.now) a b c x y }
    ensures { outcome_of result ≡ move_outcome (length_of n (whole32 table.now)) a b c x y }
{
    if is_end(a, b, c) {
        return None;
    }
    let tables = Tables {
        n,
        out: table,
        put: table,
    };
    let saved = gain(move_saving(tables, c, x, y, a, b))?;
    Some(move_of(a, b, c, x, y, saved))
}

// Tests 4 and 5: an exchange of cx or cy with ab, and then a move.
fn saving_outcome(n: u16, table: &[u8], a: u16, b: u16, c: u16, x: u16, y: u16) -> Option<Reason>
    requires { SavingAsked n (whole32 table.now) a b c x y }
    ensures { outcome_of result ≡ saving_outcome (length_of n (whole32 table.now)) a b c x y }
{
    if let Some(saved) = exchange_gain(n, table, a, b, c, x) {
        return Some(exchange_of(a, b, c, x, saved));
    }
    if let Some(saved) = exchange_gain(n, table, a, b, c, y) {
        return Some(exchange_of(a, b, c, y, saved));
    }
    move_outcome(n, table, a, b, c, x, y)
}

// What becomes of the pair x, y at the split point c: the first test in 01's order that it fails, or it stands. A
// pending edge is not open.
pub fn pair_outcome(
    n: u16,
    table: &[u8],
    marks: &[u8],
    a: u16,
    b: u16,
    c: u16,
    x: u16,
    y: u16,
) -> Option<Reason>
    requires { PairAsked n (whole32 table.now) (marks_of n marks.now) a b c x y }
    ensures { outcome_of result ≡ pair_outcome (length_of n (whole32 table.now)) (open_in n (marks_of n marks.now)) a b c x y }
{
    if !is_open(n, marks, c, x, mark::OPEN) {
        return Some(struck_leg(c, x));
    }
    if !is_open(n, marks, c, y, mark::OPEN) {
        return Some(struck_leg(c, y));
    }
    if has_third(a, b, c, x, y) {
        return Some(Reason::Third(c));
    }
    if is_end(a, b, x) && is_end(a, b, y) {
        return Some(loop_of(a, b, c));
    }
    saving_outcome(n, table, a, b, c, x, y)
}
