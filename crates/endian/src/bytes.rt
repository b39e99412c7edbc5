// Little-endian numbers of 16 and 32 bits among bytes, read and written in place.
ghost use Rattle.std.specs.Prelude.{◌≡◌, ◌++◌, ◌*◌, ◌/◌, ◌%◌, ◌<◌, ℕ, List, cond, eqb, length, get_or, drop};
ghost use Rattle.endian.specs.Bytes.{bytes16, whole16, whole32};
ghost use Rattle.endian.specs.asks.Bytes.{EncodeAsked, Entry, Put};
ghost use Rattle.std.proofs.Common.{rules};
ghost use Rattle.endian.specs.Counted.{counted16, counted32};

// A number that stands among bytes, its lowest byte first.
pub trait Number: Copy {
    // How many bytes it has.
    ghost BYTES: { ℕ };

    // The number itself, and the numbers that bytes are: none where they are no whole numbers.
    ghost value: { Self → ℕ };

    ghost whole: { List ℕ → List ℕ };

    const BYTES: usize;

    // The number at a place among the numbers that the bytes are.
    fn number(bytes: &[u8], at: usize) -> Self
        requires { at < length (whole bytes.now) }
        ensures { value result ≡ get_or (whole bytes.now) at 0 };

    // Writes a number over the entry with this number.
    fn put(bytes: &mut [u8], at: usize, number: Self)
        requires { Entry BYTES bytes.old at }
        ensures { Put BYTES bytes.old at (value number) bytes.new };

    // What each `impl` must prove.
    ghost counted: { (bytes : List ℕ) → length (whole bytes) ≡ cond (eqb (length bytes % BYTES) 0) (length bytes / BYTES) 0 };

    ghost some_bytes: { 0 < BYTES };
}

// How many numbers the bytes are: none where they are no whole numbers.
pub fn count_of<T: Number>(bytes: &[u8]) -> usize
    ensures { result ≡ length (T.whole bytes.now) }
{
    if bytes.len() % T::BYTES != 0 {
        return 0;
    }
    bytes.len() / T::BYTES
}

impl Number for u16 {
    ghost BYTES = { 2 };

    ghost value = { λ x. x };

    ghost whole = { whole16 };

    const BYTES: usize = 2;

    fn number(bytes: &[u8], at: usize) -> u16 {
        let start = 2 * at;
        u16::from(bytes[start]) + 256 * u16::from(bytes[start + 1])
    }

    fn put(bytes: &mut [u8], at: usize, number: u16) {
        let start = 2 * at;
        bytes[start] = (number % 256) as u8;
        bytes[start + 1] = (number / 256) as u8;
    }

    ghost counted = { counted16 };

    ghost some_bytes = { Prim.search rules };
}

impl Number for u32 {
    ghost BYTES = { 4 };

    ghost value = { λ x. x };

    ghost whole = { whole32 };

    const BYTES: usize = 4;

    fn number(bytes: &[u8], at: usize) -> u32 {
        let start = 4 * at;
        u32::from(bytes[start])
            + 256 * u32::from(bytes[start + 1])
            + 65_536 * u32::from(bytes[start + 2])
            + 16_777_216 * u32::from(bytes[start + 3])
    }

    fn put(bytes: &mut [u8], at: usize, number: u32) {
        let start = 4 * at;
        bytes[start] = (number % 256) as u8;
        bytes[start + 1] = (number / 256 % 256) as u8;
        bytes[start + 2] = (number / 65_536 % 256) as u8;
        bytes[start + 3] = (number / 16_777_216) as u8;
    }

    ghost counted = { counted32 };

    ghost some_bytes = { Prim.search rules };
}

// Writes the bytes of the numbers to the front of `bytes`; those past them stay. Ends with the numbers.
pub fn encode16(numbers: &[u16], bytes: &mut [u8])
    requires { EncodeAsked 2 numbers.now bytes.old }
    ensures { bytes.new ≡ bytes16 numbers.now ++ drop (2 * length numbers.now) bytes.old }
{
    for (i, number) in numbers.iter().enumerate() {
        u16::put(bytes, i, *number);
    }
}
