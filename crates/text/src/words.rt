// Words into a buffer: written at a place, with the next place as the answer. And words compared.
ghost use Rattle.std.specs.Prelude.{◌≡◌};
ghost use Rattle.text.specs.Words.{Room, Wrote, same};

// Writes a word, byte by byte: std's `copy_from_slice` takes C's `memmove`, which the archive for C needs for nothing
// else.
pub fn put_word(word: &[u8], out: &mut [u8], at: usize) -> usize
    requires { Room out.old at word.now }
    ensures { Wrote out.old at word.now result out.new }
{
    for (i, byte) in word.iter().enumerate() {
        out[at + i] = *byte;
    }
    at + word.len()
}

// Are two words the same?
pub fn same(a: &[u8], b: &[u8]) -> bool
    ensures { result ≡ same a.now b.now }
{
    a == b
}
