// Rows of a law and their first shapes, by functions that no program calls alone.
ghost use Rattle.std.specs.Prelude.{◌≤◌, ◌<◌, length};
ghost use Rattle.file.specs.Sections.{file_of};

use formats::placed::Placed;
use formats::rows::{Known, write_row};
use formats::slots::slots_of;
use law::{INDEX_WORDS, Index, Law, read_law};
use shapes::RowEnd;
use shapes::leaf::Leaf;
use shapes::row::{Shape, split_first};
use std::test::Fail;

// The words of `Go { 'a' (s.o) t.g e.g = ; } go { = ; }` as a law file: the text `Gogo`, two functions, two sentences, no conditions and
// five terms, each section after its count.
const WORDS: [u32; 56] = [
    4, 1869049671, 2, 0, 2, 1, 0, 0, 2, 2, 1, 0, 0, 2, 5, 0, 0, 0, 0, 0, 0, 0, 0, 0, 0, 5, 0, 97,
    0, 0, 0, 0, 6, 0, 0, 1, 0, 0, 3, 1, 1, 0, 0, 0, 4, 2, 1, 0, 0, 0, 5, 2, 1, 0, 0, 0,
];

// The words of the row that the first pattern has: a character, a bracket with a symbol, and any term.
const ROW: [u32; 4] = [0, 13, 3, 4];

fn law_file() -> [u8; 224] {
    let mut bytes = [0; 224];
    for i in 0..WORDS.len() {
        bytes[4 * i..4 * i + 4].copy_from_slice(&WORDS[i].to_le_bytes());
    }
    bytes
}

// The row of a sentence's pattern, from the second word on.
fn write_pattern(placed: &Placed, s: usize, out: &mut [u32]) -> Option<RowEnd>
    requires { (s < (file_of placed.now.law.bytes.now).sentences.count) × (1 ≤ length out.old) × (length out.old < 65536) }
{
    let known = Known {
        placed,
        store: &[],
        count: 0,
    };
    write_row(
        &known,
        placed.law.pattern(s),
        placed.law.pattern_at(s),
        out,
        1,
    )
}

#[test]
fn row_of_a_pattern(rt: HostRuntime) -> Result<(), Fail> {
    let bytes = law_file();
    let mut index: Index = [0; INDEX_WORDS];
    read_law(&bytes, &mut index)?;
    let law = Law {
        bytes: &bytes,
        index: &index,
    };
    let slots = slots_of(&law);
    let placed = Placed {
        law,
        slots: &slots,
        limit: 4,
    };
    assert_eq!(rt; placed.width(), 5, "a word for the header");
    assert_eq!(rt; placed.names(), 1, "two functions of one name");
    assert_eq!(rt; law.sentences(), 2);
    let mut row = [9; 6];
    assert_eq!(rt; write_pattern(&placed, 0, &mut row), Some(RowEnd::Open(5)));
    assert_eq!(rt; row, [9, 0, 13, 3, 4, 9]);
    let end = write_pattern(&placed, 0, &mut row[..4]);
    assert_eq!(rt; end, None, "no room for the last shape");
    let end = write_pattern(&placed, 1, &mut row[..1]);
    assert_eq!(rt; end, Some(RowEnd::Closed(1)), "an empty pattern");
    Ok(())
}

#[test]
fn shapes_of_a_row(rt: HostRuntime) -> Result<(), Fail> {
    let (first, rest) = split_first(&ROW).ok_or("no shape")?;
    assert!(rt; matches!(first, Shape::Leaf(Leaf::Character)));
    let (second, rest) = split_first(rest).ok_or("no second shape")?;
    let inside = match second {
        Shape::Bracket(row) => Ok(row),
        Shape::Leaf(_) => Err("no bracket"),
    }?;
    assert_eq!(rt; inside.words, [3].as_slice());
    assert!(rt; !inside.is_open);
    let (third, rest) = split_first(rest).ok_or("no third shape")?;
    assert!(rt; matches!(third, Shape::Leaf(Leaf::Unknown)));
    assert!(rt; split_first(rest).is_none());
    let mut wide = [0; 17];
    wide[0] = 133; // a bracket with all sixteen characters after it
    let (_, rest) = split_first(&wide).ok_or("no wide bracket")?;
    assert!(rt; rest.is_empty());
    Ok(())
}
