// Numbers at the front of a text, each with what stands behind it.
ghost use Rattle.std.specs.Prelude.{◌≤◌, IfSome};

// The digits at the front, which are a number up to the most.
pub fn read_number(text: &[u8], most: u64) -> Option<(u64, &[u8])>
    ensures { IfSome result (λ read. read.0 ≤ most) }
{
    let digits = text.iter().take_while(|x| x.is_ascii_digit()).count();
    let (number, rest) = text.split_at_checked(digits)?;
    let value = str::from_utf8(number).ok()?.parse::<u64>().ok()?;
    (value <= most).then_some((value, rest))
}

// A number, and whether a minus sign stands before it.
#[derive(Clone, Copy)]
pub enum Signed {
    Plain(u64),
    Minus(u64),
}

// The same, where a minus sign may stand before the number.
pub fn read_signed(text: &[u8]) -> Option<(Signed, &[u8])> {
    if let Some(digits) = text.strip_prefix(b"-") {
        let (size, rest) = read_number(digits, u64::MAX)?;
        return Some((Signed::Minus(size), rest));
    }
    let (size, rest) = read_number(text, u64::MAX)?;
    Some((Signed::Plain(size), rest))
}
