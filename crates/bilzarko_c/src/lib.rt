// The static library for programs in other languages: the five calls of the crate `bilzarko`, as functions of C, each under its name and its contract there.
// A slice crosses as a pointer and a number of elements. include/bilzarko.h declares them, and says what stack a call is given.
#![tactic(auto)]

ghost use Rattle.std.specs.Prelude.{◌≡◌};
ghost use Rattle.numbers.specs.OnePass.{step_of};
ghost use Rattle.lints.specs.Levels.{settings_from};
ghost use Rattle.listing.specs.Outcome.{text_outcome, page_outcome};
ghost use Rattle.reader.specs.Outcome.{read_outcome};
ghost use Rattle.bilzarko.specs.Exported.{FindingsExported, BytesExit, bytes_exit, ReadExit, read_exit, DigitExit, digit_exit};

// Lists the findings of a law, eight words each, and its formats in the store. `answer` is the number of findings, the rounds, and 1 for settled or 0.
#[unsafe(no_mangle)]
pub extern "C" fn bilzarko_findings(
    mode: u32,
    overrides: &[u32],
    law: &[u8],
    store: &mut [u32],
    words: &mut [u32],
    answer: &mut [u64; 3],
) -> u32
    ensures { FindingsExported 64 (settings_from mode overrides.now) law.now store.old words.old answer.old
        (record { number = result; store = store.new; findings = words.new; answer = answer.new }) }
{
    bilzarko::bilzarko_findings(mode, overrides, law, store, words, answer)
}

// Writes the text of the finding at a position, and the law's formats in the store. `answer` is the number of bytes written.
#[unsafe(no_mangle)]
pub extern "C" fn bilzarko_text(
    mode: u32,
    overrides: &[u32],
    law: &[u8],
    store: &mut [u32],
    position: usize,
    text: &mut [u8],
    answer: &mut u64,
) -> u32
    ensures { ◌≡◌ {A = BytesExit} (record { number = result; store = store.new; bytes = text.new; answer = answer.new })
        (bytes_exit answer.old (text_outcome 64 (settings_from mode overrides.now) law.now store.old position text.old)) }
{
    bilzarko::bilzarko_text(mode, overrides, law, store, position, text, answer)
}

// Writes the page of a law's findings, and its formats in the store. `answer` is the number of bytes written.
#[unsafe(no_mangle)]
pub extern "C" fn bilzarko_page(
    mode: u32,
    overrides: &[u32],
    law: &[u8],
    store: &mut [u32],
    page: &mut [u8],
    answer: &mut u64,
) -> u32
    ensures { ◌≡◌ {A = BytesExit} (record { number = result; store = store.new; bytes = page.new; answer = answer.new })
        (bytes_exit answer.old (page_outcome 64 (settings_from mode overrides.now) law.now store.old page.old)) }
{
    bilzarko::bilzarko_page(mode, overrides, law, store, page, answer)
}

// Reads a law typed as text, and writes its law file. `answer` is the number of bytes written.
#[unsafe(no_mangle)]
pub extern "C" fn bilzarko_read(text: &[u8], law: &mut [u8], answer: &mut u64) -> u32
    ensures { ◌≡◌ {A = ReadExit} (record { number = result; law = law.new; answer = answer.new })
        (read_exit answer.old (read_outcome text.now law.old)) }
{
    bilzarko::bilzarko_read(text, law, answer)
}

// Takes one more digit of a number: 1 where the value of the digits so far is at most 4294967295, 0 where it is past that, 2 where the byte is no digit.
// The state before the first digit is 0.
#[unsafe(no_mangle)]
pub extern "C" fn bilzarko_digit(state: &mut u64, digit: u8) -> u32
    ensures { ◌≡◌ {A = DigitExit} (record { number = result; state = state.new }) (digit_exit (step_of state.old digit)) }
{
    bilzarko::bilzarko_digit(state, digit)
}
