// The five calls for programs in other languages, which the crate `bilzarko_c` exports as functions of C. A slice crosses as a pointer and a number of elements.
// The first four return 0 or a refusal's number; what they answer stands in lent words, which keep their values where a call is refused. The last refuses
// nothing and returns its answer. include/bilzarko.h says what stack a call is given, and that the first three can take for ever.
//
// A mode, overrides, a law and a store are parameters of their own, as the functions of C take them.
#![tactic(auto)]

ghost use Rattle.std.specs.Prelude.{◌≡◌};
ghost use Rattle.numbers.specs.OnePass.{step_of};
ghost use Rattle.lints.specs.Levels.{settings_from};
ghost use Rattle.listing.specs.Outcome.{text_outcome, page_outcome};
ghost use Rattle.reader.specs.Outcome.{read_outcome};
ghost use Rattle.bilzarko.specs.Exported.{FindingsExported, BytesExit, bytes_exit, ReadExit, read_exit, tested_number, DigitExit, digit_exit};

use numbers::{Tested, digit_step};

// Lists the findings of a law, eight words each, and its formats in the store. `answer` is the number of findings, the rounds, and 1 for settled or 0.
pub fn bilzarko_findings(
    mode: u32,
    overrides: &[u32],
    law: &[u8],
    store: &mut [u32],
    words: &mut [u32],
    answer: &mut [u64; 3],
) -> u32
    ensures { FindingsExported 64 (settings_from mode overrides.now) law.now store.old words.old answer.old
        (record { number = result; store = store.new; findings = words.new; answer = answer.new }) }
{
    match listing::findings(mode, overrides, law, store, words) {
        Err(why) => u32::from(why),
        Ok(listed) => {
            let settled = u64::from(listed.settled);
            *answer = [listed.count as u64, listed.rounds as u64, settled];
            0
        }
    }
}

// The three calls that write bytes end alike, each over errors of its own. A function for their ends is no plainer: its clause would say, by the bound
// `u32: From<E>`, what `bytes_exit` and `read_exit` say of each.

// Writes the text of the finding at a position, and the law's formats in the store. `answer` is the number of bytes written.
// The calls that write bytes end with the same `match`: one function for it would need `u32: From<E>` of their errors, and no line gets shorter.
pub fn bilzarko_text(
    mode: u32,
    overrides: &[u32],
    law: &[u8],
    store: &mut [u32],
    position: usize,
    text: &mut [u8],
    answer: &mut u64,
) -> u32
    ensures { ◌≡◌ {A = BytesExit} (record { number = result; store = store.new; bytes = text.new; answer = answer.new })
        (bytes_exit answer.old (text_outcome 64 (settings_from mode overrides.now) law.now store.old position text.old)) }
{
    match listing::text(mode, overrides, law, store, position, text) {
        Err(why) => u32::from(why),
        Ok(bytes) => {
            *answer = bytes as u64;
            0
        }
    }
}

// Writes the page of a law's findings, and its formats in the store. `answer` is the number of bytes written.
pub fn bilzarko_page(
    mode: u32,
    overrides: &[u32],
    law: &[u8],
    store: &mut [u32],
    page: &mut [u8],
    answer: &mut u64,
) -> u32
    ensures { ◌≡◌ {A = BytesExit} (record { number = result; store = store.new; bytes = page.new; answer = answer.new })
        (bytes_exit answer.old (page_outcome 64 (settings_from mode overrides.now) law.now store.old page.old)) }
{
    match listing::page(mode, overrides, law, store, page) {
        Err(why) => u32::from(why),
        Ok(bytes) => {
            *answer = bytes as u64;
            0
        }
    }
}

// Reads a law typed as text, and writes its law file. `answer` is the number of bytes written.
pub fn bilzarko_read(text: &[u8], law: &mut [u8], answer: &mut u64) -> u32
    ensures { ◌≡◌ {A = ReadExit} (record { number = result; law = law.new; answer = answer.new })
        (read_exit answer.old (read_outcome text.now law.old)) }
{
    match reader::read(text, law) {
        Err(why) => u32::from(why),
        Ok(bytes) => {
            *answer = bytes as u64;
            0
        }
    }
}

// The number of an answer to a digit.
// A function and no `From`, which would have to stand beside `Tested` in `numbers`: these numbers are of the exported call alone.
fn tested_number(answer: Tested) -> u32
    ensures { result ≡ tested_number answer }
{
    match answer {
        Tested::Past => 0,
        Tested::AtMost => 1,
        Tested::NoDigit => 2,
    }
}

// Takes one more digit of a number: 1 where the value of the digits so far is at most 4294967295, 0 where it is past that, 2 where the byte is no digit.
// The state before the first digit is 0.
pub fn bilzarko_digit(state: &mut u64, digit: u8) -> u32
    ensures { ◌≡◌ {A = DigitExit} (record { number = result; state = state.new }) (digit_exit (step_of state.old digit)) }
{
    let step = digit_step(*state, digit);
    let answer = step.answer;
    *state = step.state;
    tested_number(answer)
}
