// The fields of a line, put after what stands there as far as there is room.
ghost use Rattle.std.specs.Prelude.{◌+◌, ◌≤◌, ◌<◌, length, replicate};
ghost use Rattle.buffers.specs.Decimal.{decimal};
ghost use Rattle.buffers.specs.Code.Put.{largest};
ghost use Rattle.buffers.specs.Code.Text.{Puts};
ghost use Rattle.pages.specs.Page.{left, right, next_field, cut};

use buffers::Text;

// The columns of a line, of a name in it, and of a number with the space before it.
const COLUMNS: usize = 72;

const NAME: usize = 24;

const NUMBER: usize = 11;

// So many spaces.
pub fn put_spaces(text: &mut Text, count: usize)
    requires { (count ≤ 72) × (text.old.at + 72 ≤ largest) }
    ensures { Puts text.old text.new (replicate count 32) }
{
    let spaces = [b' '; COLUMNS];
    text.put(&spaces[..count]);
}

// A word at the left of its columns.
fn put_left(text: &mut Text, word: &[u8], columns: usize)
    requires { (length word.now ≤ columns) × (columns ≤ 72) × (text.old.at + 144 ≤ largest) }
    ensures { Puts text.old text.new (left columns word.now) }
{
    text.put(word);
    put_spaces(text, columns - word.len());
}

// A field of ten columns with a number at the right, after a space. The digits are found from the last one on.
// A loop and no call of `put_decimal`, which would go through the digits twice, to measure and to put them.
pub fn put_number(text: &mut Text, n: usize)
    requires { (n < 10000000000) × (text.old.at + 145 ≤ largest) }
    ensures { Puts text.old text.new (next_field (right 10 (decimal n))) }
{
    let mut field = [b' '; NUMBER];
    let mut rest = n;
    let mut i = NUMBER - 1;
    while 10 <= rest {
        field[i] = b'0' + (rest % 10) as u8;
        rest /= 10;
        i -= 1;
    }
    field[i] = b'0' + rest as u8;
    text.put(&field);
}

// A function's name, cut where it is longer than its field.
pub fn put_name(text: &mut Text, name: &[u8])
    requires { text.old.at + 145 ≤ largest }
    ensures { Puts text.old text.new (left 24 (cut name.now)) }
{
    if name.len() <= NAME {
        put_left(text, name, NAME);
    } else {
        text.put(&name[..NAME - 1]);
        text.put_byte(b'+');
    }
}
