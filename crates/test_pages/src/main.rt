// Puts laws through the exported page call, as an editor makes it, and says what it answers and what every lent word and byte holds then.
//
// A case is a label as the crate `test_cases` reads it; these words: the mode, the number of overrides, the overrides, the words of a store and the bytes
// of a page that are lent; and a law as `test_cases` reads it.
//
// Before each call every lent word and byte is given a value. After the answer come all words of the store in order, as numbers and as `kept` where a word
// has its value still, with `*` and a number for so many in a row; then the bytes of the page up to the last that was changed, and how many are kept after it.
#![tactic(auto)]

use loader::print;
use std::io;
use std::io::{Read, Write};
use test_cases::lent::{
    ANSWER, changed_bytes, fill_bytes, fill_words, print_returned, print_said, print_words,
};
use test_cases::{LABEL, LAW, Settings, answer_cases, read_at_most, read_law, read_settings};

// The most that can be lent: more words than a store has, more bytes than a page of 256 findings has.
const STORE: usize = 8400;

const PAGE: usize = 19200;

const OVERRIDES: usize = 16;

// The value that is given to the first word of a store before a call; each later word has the next one.
const STORE_FIRST: u32 = 0xa5a50000;

// Writes the bytes of a page up to the last that was changed, and how many are kept after it.
fn print_page<W: Write>(output: &mut W, page: &[u8]) -> io::Result<()> {
    let end = changed_bytes(page);
    output.write_all(b"    page\n")?;
    output.write_all(&page[..end])?;
    print_said(output, b"    kept*", (page.len() - end) as u64)
}

// Makes the call.
fn call_print<W: Write>(
    output: &mut W,
    settings: &Settings,
    law: &[u8],
    store: &mut [u32],
    page: &mut [u8],
) -> io::Result<()> {
    let mut answer = ANSWER;
    fill_words(store, STORE_FIRST);
    fill_bytes(page);
    let number = print(
        settings.mode,
        settings.overrides,
        law,
        store,
        page,
        &mut answer,
    );
    print_returned(output, number, answer)?;
    output.write_all(b"    store")?;
    print_words(output, store, STORE_FIRST)?;
    print_page(output, page)
}

// Makes the call with parts of the space that is there, as a case asks, and says whether there may be another case. A law that does
// not fit or is cut short is left without an answer.
fn answer_law<R: Read, W: Write>(
    input: &mut R,
    output: &mut W,
    settings: &Settings,
    space: &mut [u8],
    store: &mut [u32],
    page: &mut [u8],
) -> io::Result<bool> {
    let lent_store = read_at_most(input, store.len())?;
    let lent_page = read_at_most(input, page.len())?;
    let Some(end) = read_law(input, space)? else {
        return Ok(false);
    };
    let store = &mut store[..lent_store];
    let page = &mut page[..lent_page];
    call_print(output, settings, &space[..end], store, page)?;
    Ok(true)
}

// Reads one case and answers it, and says whether there may be another.
fn answer_case<R: Read, W: Write>(
    input: &mut R,
    output: &mut W,
    space: &mut [u8],
    store: &mut [u32],
    page: &mut [u8],
) -> io::Result<bool> {
    let mut overrides = [0u32; OVERRIDES];
    let settings = read_settings(input, &mut overrides)?;
    answer_law(input, output, &settings, space, store, page)
}

fn main(rt: HostRuntime) -> io::Result<()> {
    let mut label = [0u8; LABEL];
    let mut space = [0u8; LAW];
    let mut store = [0u32; STORE];
    let mut page = [0u8; PAGE];
    answer_cases(
        rt.alloc(),
        rt.stdin(),
        rt.stdout(),
        &mut label,
        b"\n",
        |input, output, _| { answer_case(input, output, &mut space, &mut store, &mut page) },
    )
}
