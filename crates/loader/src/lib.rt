// The exported calls as a loader and an editor use them. These contracts say in full what a caller relies on, in words of their own: where a contract of
// `bilzarko`, `listing`, `reader` or `numbers` promises less, or asks for something, they are not proved.
//
// A mode, overrides, a law and a store are parameters of their own, as the exported calls take them.
#![tactic(auto)]

ghost use Rattle.std.specs.Prelude.{[], ◌∷◌};
ghost use Rattle.lints.specs.Levels.{settings_from};
ghost use Rattle.loader.specs.Rows.{returned};
ghost use Rattle.loader.specs.Loaded.{Loaded};
ghost use Rattle.loader.specs.Shown.{Shown};
ghost use Rattle.loader.specs.Printed.{Printed};
ghost use Rattle.loader.specs.Typed.{Typed};
ghost use Rattle.loader.specs.Marked.{Marked};

use bilzarko::{bilzarko_digit, bilzarko_findings, bilzarko_page, bilzarko_read, bilzarko_text};

// Lists the findings of a law that is loaded. It returns 0 or a refusal's number.
pub fn load(
    mode: u32,
    overrides: &[u32],
    law: &[u8],
    store: &mut [u32],
    words: &mut [u32],
    answer: &mut [u64; 3],
) -> u32
    ensures { Loaded (settings_from mode overrides.now) law.now store.old words.old answer.old
        (returned result store.new words.new answer.new) }
{
    bilzarko_findings(mode, overrides, law, store, words, answer)
}

// Writes the text of the finding that an editor shows. It returns 0 or a refusal's number.
pub fn show(
    mode: u32,
    overrides: &[u32],
    law: &[u8],
    store: &mut [u32],
    position: usize,
    text: &mut [u8],
    answer: &mut u64,
) -> u32
    ensures { Shown (settings_from mode overrides.now) law.now store.old position text.old (answer.old ∷ [])
        (returned result store.new text.new (answer.new ∷ [])) }
{
    bilzarko_text(mode, overrides, law, store, position, text, answer)
}

// Prints the page that a reviewer files. It returns 0 or a refusal's number.
pub fn print(
    mode: u32,
    overrides: &[u32],
    law: &[u8],
    store: &mut [u32],
    page: &mut [u8],
    answer: &mut u64,
) -> u32
    ensures { Printed (settings_from mode overrides.now) law.now store.old page.old (answer.old ∷ [])
        (returned result store.new page.new (answer.new ∷ [])) }
{
    bilzarko_page(mode, overrides, law, store, page, answer)
}

// Writes the law file of a text that an editor was given. It returns 0 or a refusal's number.
pub fn read(text: &[u8], law: &mut [u8], answer: &mut u64) -> u32
    ensures { Typed text.now law.old (answer.old ∷ []) (returned result [] law.new (answer.new ∷ [])) }
{
    bilzarko_read(text, law, answer)
}

// Marks a byte of a number that is typed: 1 where the number so far is at most 4294967295, 0 where it is past that, 2 where the byte is no digit.
pub fn mark(state: &mut u64, byte: u8) -> u32
    ensures { Marked state.old byte result state.new }
{
    bilzarko_digit(state, byte)
}
