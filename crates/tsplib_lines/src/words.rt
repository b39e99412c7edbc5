// Words among blanks.
ghost use Rattle.std.specs.Prelude.{◌≡◌, ◌==◌, position};
ghost use Rattle.tsplib_lines.specs.Words.{after_blanks, is_sole};

pub const BLANK: u8 = b' ';

pub const COLON: u8 = b':';

pub const NEWLINE: u8 = b'\n';

// The first place of a byte.
pub fn find(text: &[u8], byte: u8) -> Option<usize>
    ensures { result ≡ position (λ b. b == byte) text.now }
{
    text.iter().position(|b| *b == byte)
}

// The text behind the blanks in front.
fn past_blanks(text: &[u8]) -> &[u8]
    ensures { result.now ≡ after_blanks text.now }
{
    match text.iter().position(|b| *b != BLANK) {
        Some(first) => &text[first..],
        None => &[],
    }
}

// Is the text the word by itself, with blanks around it at will?
pub fn is_sole(text: &[u8], word: &[u8]) -> bool
    ensures { result ≡ is_sole word.now text.now }
{
    match past_blanks(text).strip_prefix(word) {
        Some(rest) => past_blanks(rest).is_empty(),
        None => false,
    }
}
