// Records put into a buffer, word by word.
// The buffer and a position go apart, and not as a `Text`: the number of a section is put before its records, once these are there.
ghost use Rattle.std.specs.Prelude.{◌+◌, ◌*◌, ◌≤◌, ◌<◌, ◌≡◌, List, ℕ, length};
ghost use Rattle.buffers.specs.Code.Put.{Put, largest};
ghost use Rattle.encoding.specs.Encode.{Record, word_bytes, record_bytes, records_bytes, section_bytes};

use buffers::put_byte;

// A word, least byte first.
pub fn put_word(n: u32, out: &mut [u8], at: usize) -> usize
    requires { at + 4 ≤ largest }
    ensures { Put out.old at (word_bytes n) result out.new }
{
    let [a, b, c, d] = n.to_le_bytes();
    let second = put_byte(a, out, at);
    let third = put_byte(b, out, second);
    let last = put_byte(c, out, third);
    put_byte(d, out, last)
}

// A record of these words.
pub fn put_record(words: &[u32], out: &mut [u8], at: usize) -> usize
    requires { at + 4 * length words.now ≤ largest }
    ensures { (result ≡ at + 4 * length words.now) × Put out.old at (record_bytes words.now) result out.new }
{
    let mut next = at;
    for word in words {
        next = put_word(*word, out, next);
    }
    next
}

// The number of records that stand behind it, each of so many bytes. The position after them.
pub fn put_count(size: usize, out: &mut [u8], at: usize, end: usize) -> usize
    requires { (0 < size) × (at + 4 ≤ end) × (end ≤ at + 4 + 4294967295 * size) × (at + 4 ≤ largest) }
    ensures { (result ≡ end)
        × ((old : List ℕ) (rs : List Record) → Put old (at + 4) (records_bytes rs) end out.old → length (records_bytes rs) ≡ size * length rs
        → Put old at (section_bytes rs) result out.new) }
{
    put_word(((end - (at + 4)) / size) as u32, out, at);
    end
}
