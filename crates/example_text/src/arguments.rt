// The arguments of a line, and the buffers that it should leave.
use crate::digits::read_number;
use crate::values::{Buffer, MOST, Width};

// One of the four buffers, which stay from line to line; how many of its bytes are lent; and what its bytes should be
// when it is left, with its size then: None is anything.
#[derive(Clone, Copy)]
pub struct Slot {
    pub buffer: Buffer,
    pub lent: usize,
    pub left: [u8; MOST],
    pub left_size: Option<usize>,
}

// The four buffers: a table; marks; coordinates, a sheet, a tour, a list, a byte set or a view; a high table, a text or
// desks.
#[derive(Clone, Copy)]
pub struct Slots {
    pub table: Slot,
    pub marks: Slot,
    pub sheet: Slot,
    pub text: Slot,
}

// The place of a buffer among the four.
#[derive(Clone, Copy)]
enum Place {
    Table,
    Marks,
    Sheet,
    Text,
}

// What an argument is: a number up to the most, or a buffer at its place, of numbers of a width.
#[derive(Clone, Copy)]
enum Kind {
    Number(u64),
    Buffer(Place, Width),
}

// What the list says of an argument.
#[derive(Drop)]
struct Argument<'a> {
    name: &'a [u8],
    kind: Kind,
}

impl Kind {
    // The kind that a letter of the list stands for.
    fn of(letter: u8) -> Option<Kind> {
        Some(match letter {
            b'h' => Kind::Number(65_535),
            b'w' => Kind::Number(4_294_967_295),
            b'l' => Kind::Number(u64::MAX),
            b't' => Kind::Buffer(Place::Table, Width::Word),
            b'm' => Kind::Buffer(Place::Marks, Width::Byte),
            b'c' => Kind::Buffer(Place::Sheet, Width::Word),
            b's' => Kind::Buffer(Place::Sheet, Width::Half),
            b'b' => Kind::Buffer(Place::Sheet, Width::Byte),
            b'g' => Kind::Buffer(Place::Text, Width::Word),
            b'd' => Kind::Buffer(Place::Text, Width::Byte),
            _ => return None,
        })
    }
}

impl<'a> Argument<'a> {
    // What a word of the list says.
    fn of(word: &'a str) -> Option<Argument<'a>> {
        let (letter, name) = word.as_bytes().split_last()?;
        let kind = Kind::of(*letter)?;
        Some(Argument { name, kind })
    }

    // What stands behind the blank and the name, where they are at the front of a text.
    fn behind<'b>(&self, text: &'b [u8]) -> Option<&'b [u8]> {
        text.strip_prefix(b" ")?.strip_prefix(self.name)
    }
}

impl Slot {
    // No byte yet, and none is lent.
    const EMPTY: Slot = Slot {
        buffer: Buffer::EMPTY,
        lent: 0,
        left: [0; MOST],
        left_size: Some(0),
    };

    // Reads a buffer that is lent: @ is the one that the line before left. Behind / stands how many of its bytes are
    // lent, up to all.
    fn give<'a>(&mut self, text: &'a [u8], width: Width) -> Option<&'a [u8]> {
        let rest = match text.strip_prefix(b"@") {
            Some(rest) => rest,
            None => self.buffer.read(text, width)?,
        };
        let size = self.buffer.size;
        let (lent, rest) = match rest.strip_prefix(b"/") {
            Some(part) => read_number(part, size as u64)?,
            None => (size as u64, rest),
        };
        self.lent = lent as usize;
        self.left_size = Some(size);
        Some(rest)
    }

    // Reads what the buffer should be when it is left: ? is any. What stands behind its bytes should stay.
    fn expect<'a>(&mut self, text: &'a [u8], width: Width) -> Option<&'a [u8]> {
        if let Some(rest) = text.strip_prefix(b"?") {
            self.left_size = None;
            return Some(rest);
        }
        let mut buffer = self.buffer;
        let rest = buffer.read(text, width)?;
        self.left = buffer.bytes;
        self.left_size = Some(buffer.size);
        Some(rest)
    }

    // What is lent of the buffer: never more than all.
    pub fn lend(&mut self) -> &mut [u8] {
        let lent = self.lent.min(MOST);
        &mut self.buffer.bytes[..lent]
    }

    // The bytes should stay as they are.
    fn keep(&mut self) {
        self.left = self.buffer.bytes;
    }

    // Whether the buffer is what it should be.
    fn is_left(&self) -> bool {
        self.left_size.is_none_or(|size| size == self.buffer.size && self.left == self.buffer.bytes)
    }
}

impl Slots {
    // Nothing is lent.
    pub const EMPTY: Slots = Slots {
        table: Slot::EMPTY,
        marks: Slot::EMPTY,
        sheet: Slot::EMPTY,
        text: Slot::EMPTY,
    };

    // The buffer at a place.
    fn at(&mut self, place: Place) -> &mut Slot {
        match place {
            Place::Table => &mut self.table,
            Place::Marks => &mut self.marks,
            Place::Sheet => &mut self.sheet,
            Place::Text => &mut self.text,
        }
    }

    // Each buffer should stay as it is.
    fn keep(&mut self) {
        self.table.keep();
        self.marks.keep();
        self.sheet.keep();
        self.text.keep();
    }

    // Whether each buffer is what it should be.
    pub fn are_left(&self) -> bool {
        self.table.is_left() && self.marks.is_left() && self.sheet.is_left() && self.text.is_left()
    }
}

// Reads the arguments of the list, each into its place, and answers what stands behind them in the line. A function
// takes less than sixteen.
pub fn given<'a>(
    line: &'a [u8],
    list: &str,
    numbers: &mut [u64; 16],
    slots: &mut Slots,
) -> Option<&'a [u8]> {
    let mut rest = line;
    for (i, word) in list.split(' ').enumerate() {
        let argument = Argument::of(word)?;
        let text = argument.behind(rest)?;
        rest = match argument.kind {
            Kind::Number(most) => {
                let (value, next) = read_number(text, most)?;
                *numbers.get_mut(i)? = value;
                next
            }
            Kind::Buffer(place, width) => slots.at(place).give(text, width)?,
        };
    }
    Some(rest)
}

// Reads the buffers that should be left, in the list's order, and answers what stands behind them in the line. One that
// is not there should stay as it is.
pub fn expected<'a>(line: &'a [u8], list: &str, slots: &mut Slots) -> Option<&'a [u8]> {
    slots.keep();
    let mut rest = line;
    for word in list.split(' ') {
        let argument = Argument::of(word)?;
        if let Some(text) = argument.behind(rest) {
            let Kind::Buffer(place, width) = argument.kind else {
                return None;
            };
            rest = slots.at(place).expect(text, width)?;
        }
    }
    Some(rest)
}
