// The characters of a text, in UTF-8.
ghost use Rattle.std.specs.Prelude.{◌-◌, ◌<◌, ◌≤◌, ◌≡◌, length, drop, get_or};
ghost use Rattle.std.specs.Iterator.{at_most};
ghost use Rattle.tokens.specs.Code.Found.{CharacterAt, YieldsCharacter, GoesOn, Spelled};

// The six bits of a byte that goes on a character, if one stands there.
fn continuation(bytes: &[u8], i: usize) -> Option<u32>
    ensures { GoesOn (get_or bytes.now i 0) result }
{
    let byte = *bytes.get(i)?;
    if byte < 0x80 || 0xC0 <= byte {
        return None;
    }
    Some(u32::from(byte) - 0x80)
}

// The number that the bytes of a character of more than one byte say, and how many they are. The character may be none, or have a shorter form.
// By hand, as a text has many characters: the library goes over the bytes twice, and took up to 1.9 times as long for a comment.
fn spelled(bytes: &[u8]) -> Option<(u32, usize)>
    requires { (0 < length bytes.now) × (128 ≤ get_or bytes.now 0 0) }
    ensures { Spelled bytes.now result }
{
    let first = u32::from(bytes[0]);
    let second = continuation(bytes, 1)?;
    if first < 0xE0 {
        return Some((first.saturating_sub(0xC0) * 0x40 + second, 2));
    }
    let third = continuation(bytes, 2)?;
    if first < 0xF0 {
        return Some(((first - 0xE0) * 0x1000 + second * 0x40 + third, 3));
    }
    let fourth = continuation(bytes, 3)?;
    Some((
        (first - 0xF0) * 0x40000 + second * 0x1000 + third * 0x40 + fourth,
        4,
    ))
}

// The character at a byte with the number of its bytes, if those are UTF-8.
pub fn character_at(text: &[u8], at: usize) -> Option<(char, usize)>
    ensures { CharacterAt (drop at text.now) result }
{
    let bytes = text.get(at..)?;
    let first = *bytes.first()?;
    if first < 0x80 {
        return Some((char::from(first), 1));
    }
    let (code, width) = spelled(bytes)?;
    let c = char::from_u32(code)?;
    if c.len_utf8() != width {
        return None;
    }
    Some((c, width))
}

// Goes over the characters of a text from a byte on, each with the byte where it starts. It ends with the text, or where no character stands.
#[derive(Clone, Copy)]
pub struct Characters<'a> {
    pub text: &'a [u8],
    pub at: usize,
}

impl<'a> Iterator for Characters<'a> {
    type Item = (usize, char);

    ghost next_gives = { λ before item later. YieldsCharacter before.text.now before.at item later.text.now later.at };

    ghost remaining = { λ s. at_most (length s.text.now - s.at) };

    fn next(&mut self) -> Option<(usize, char)> {
        let start = self.at;
        let (c, width) = character_at(self.text, start)?;
        self.at = start + width;
        Some((start, c))
    }
}
