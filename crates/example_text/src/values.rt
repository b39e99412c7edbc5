// A buffer, and its value in a line: numbers, repeated numbers and texts, with commas between them.
use crate::digits::read_number;

// The most bytes of a buffer.
pub const MOST: usize = 65_536;

// A number of a buffer has 8, 16 or 32 bits: so many bytes.
#[derive(Clone, Copy, PartialEq, Eq)]
pub enum Width {
    Byte = 1,
    Half = 2,
    Word = 4,
}

impl Width {
    // The largest number.
    fn most(self) -> u64 {
        match self {
            Width::Byte => u64::from(u8::MAX),
            Width::Half => u64::from(u16::MAX),
            Width::Word => u64::from(u32::MAX),
        }
    }
}

// A buffer has some bytes; those behind them are there too, and should stay.
#[derive(Clone, Copy, PartialEq, Eq)]
pub struct Buffer {
    pub bytes: [u8; MOST],
    pub size: usize,
}

impl Buffer {
    // No byte yet.
    pub const EMPTY: Buffer = Buffer {
        bytes: [0; MOST],
        size: 0,
    };

    // Adds bytes behind those that there are, where they fit.
    fn push(&mut self, added: &[u8]) -> Option<()> {
        let end = self.size.checked_add(added.len())?;
        self.bytes.get_mut(self.size..end)?.copy_from_slice(added);
        self.size = end;
        Some(())
    }

    // Adds a text, up to the closing quote; behind a backslash, n is a newline, and a backslash and a quote are
    // themselves. Answers what stands behind the quote. A text that fills the buffer is none.
    fn quoted<'a>(&mut self, text: &'a [u8]) -> Option<&'a [u8]> {
        let mut rest = text;
        while self.size < MOST
            && let [first, behind @ ..] = rest
        {
            rest = behind;
            match (*first, behind) {
                (b'"', _) => return Some(behind),
                (b'\\', [b'n', after @ ..]) => {
                    self.push(b"\n")?;
                    rest = after;
                }
                (b'\\', [escaped @ (b'\\' | b'"'), after @ ..]) => {
                    self.push(&[*escaped])?;
                    rest = after;
                }
                (b'\\', _) => return None,
                (plain @ b' '..=b'~', _) => self.push(&[plain])?,
                _ => return None,
            }
        }
        None
    }

    // Adds a number, as often as a count behind * says; of single bytes a text, too.
    fn item<'a>(&mut self, text: &'a [u8], width: Width) -> Option<&'a [u8]> {
        if width == Width::Byte
            && let Some(quoted) = text.strip_prefix(b"\"")
        {
            return self.quoted(quoted);
        }
        let (value, mut rest) = read_number(text, width.most())?;
        let mut count = 1;
        if let Some(times) = rest.strip_prefix(b"*") {
            (count, rest) = read_number(times, MOST as u64)?;
        }
        // all of them fit, or none is written
        let added = (count as usize).checked_mul(width as usize)?;
        self.bytes.get(self.size..self.size.checked_add(added)?)?;
        let bytes = value.to_le_bytes();
        for _ in 0..count {
            self.push(&bytes[..width as usize])?;
        }
        Some(rest)
    }

    // Reads the whole value at the front of a text, and answers what stands behind it. Where it cannot be read the size
    // stays.
    pub fn read<'a>(&mut self, text: &'a [u8], width: Width) -> Option<&'a [u8]> {
        let size = self.size;
        let read = self.items(text, width);
        if read.is_none() {
            self.size = size;
        }
        read
    }

    // Its items. There are no more of them than bytes in the text.
    fn items<'a>(&mut self, text: &'a [u8], width: Width) -> Option<&'a [u8]> {
        self.size = 0;
        let mut rest = text;
        for _ in 0..text.len() {
            rest = self.item(rest, width)?;
            let Some(next) = rest.strip_prefix(b",") else {
                return Some(rest);
            };
            rest = next;
        }
        None
    }
}
