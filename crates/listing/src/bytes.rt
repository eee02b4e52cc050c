// The calls that write bytes of a listing: the text of a finding, and the page.
ghost use Rattle.std.specs.Prelude.{List, [], ◌≡◌, ℕ, ◌*◌, ◌≤◌, length};
ghost use Rattle.file.specs.Answer.{given};
ghost use Rattle.file.specs.Sections.{file_of};
ghost use Rattle.law.specs.Law.{law_of};
ghost use Rattle.law.specs.Reading.{tree_of};
ghost use Rattle.formats.specs.Store.{store_size};
ghost use Rattle.lints.specs.Levels.{Settings as Chosen};
ghost use Rattle.lints.specs.Code.Overrides.{settings_meant};
ghost use Rattle.pages.specs.Page.{page};
ghost use Rattle.pages.specs.Code.Lines.{words_page, Positions};
ghost use Rattle.listing.specs.Outcome.{fitted_bytes, bytes_front, bytes_outcome, own_bytes, text_at};
ghost use Rattle.listing.specs.Code.Gather.{shown_in, Collected};
ghost use Rattle.listing.specs.Code.Bytes.{wanted_number, wanted_bytes, told_pair};
ghost use Rattle.listing.specs.Promise.{bytes_after};

use crate::Turned;
use crate::front::{LIMIT, check_front, is_empty, store_words};
use crate::gather::{OWN, gather};
use formats::call::clear_store;
use formats::held::Formats;
use formats::slots::slots_of;
use law::{AcceptedLaw, Index};
use lints::levels::Settings;
use messages::put_message;
use pages::{page_length, put_heading, put_page};

// What is written of a listing: the text of the finding at a position, or all of it on a page. It is an enum, and no function is lent in its place, since a law
// without functions is answered with no findings to give to one: two would have to be lent, each with the whole of `wanted_bytes` in its clause.
// A page is no missing position, so it is no `Option`.
#[derive(Clone, Copy)]
pub enum Wanted {
    Text(usize),
    Page,
}

// Writes the text of the finding at a position among the call's own.
// The buffer and the number of findings in it go apart, here and below: a page needs the number, which a slice of words gives only divided by 8.
fn tell(
    formats: &Formats,
    own: &[u32],
    count: usize,
    position: usize,
    text: &mut [u8],
) -> Result<usize, Turned>
    requires { ((settings : Chosen) × Collected formats.now.limit settings formats.now.law.law.bytes.now formats.now.store.now own.now count) × (8 * count ≤ length own.now) }
    ensures { (settings : Chosen) → Collected formats.now.limit settings formats.now.law.law.bytes.now formats.now.store.now own.now count
        → told_pair result text.new ≡ fitted_bytes 13 text.old (text_at position (shown_in formats.now.limit settings formats.now.law.law.bytes.now formats.now.store.now)) }
{
    if count <= position {
        return Err(Turned::NoFinding);
    }
    let room = text.len();
    let at = 8 * position;
    let end = at + 8;
    let words = &own[at..end];
    let length = put_message(formats, words, &mut text[..0]); // no byte fits: only the length is found
    if room < length {
        return Err(Turned::Text);
    }
    put_message(formats, words, text);
    Ok(length)
}

// Writes the page of the call's own findings.
fn print(
    accepted: &AcceptedLaw,
    own: &[u32],
    count: usize,
    page: &mut [u8],
) -> Result<usize, Turned>
    requires { (count ≤ 256) × (8 * count ≤ length own.now) × Positions (file_of accepted.now.law.bytes.now) own.now count }
    ensures { told_pair result page.new ≡ fitted_bytes 18 page.old (given (words_page (file_of accepted.now.law.bytes.now) own.now count)) }
{
    let length = page_length(count);
    if page.len() < length {
        return Err(Turned::Page);
    }
    put_page(&accepted.law, own, count, page);
    Ok(length)
}

// Writes what is wanted of the call's own findings.
fn write_own(
    formats: &Formats,
    own: &[u32],
    count: usize,
    wanted: Wanted,
    buffer: &mut [u8],
) -> Result<usize, Turned>
    requires { ((settings : Chosen) × Collected formats.now.limit settings formats.now.law.law.bytes.now formats.now.store.now own.now count) × (8 * count ≤ length own.now) × (count ≤ 256) }
    ensures { (settings : Chosen) → Collected formats.now.limit settings formats.now.law.law.bytes.now formats.now.store.now own.now count
        → told_pair result buffer.new ≡ fitted_bytes (wanted_number wanted) buffer.old
        (wanted_bytes wanted settings (tree_of (file_of formats.now.law.law.bytes.now)) (shown_in formats.now.limit settings formats.now.law.law.bytes.now formats.now.store.now)) }
{
    match wanted {
        Wanted::Text(position) => tell(formats, own, count, position, buffer),
        Wanted::Page => print(&formats.law, own, count, buffer),
    }
}

// Writes what is wanted of a law that is ready.
fn write_ready(
    accepted: &AcceptedLaw,
    settings: &Settings,
    store: &mut [u32],
    limit: usize,
    wanted: Wanted,
    buffer: &mut [u8],
) -> Result<usize, Turned>
    requires { (limit ≤ 64) × (store_size limit ≤ length store.old) }
    ensures { bytes_after result store.new buffer.new
        ≡ bytes_front limit (settings_meant settings.now) (wanted_number wanted) (own_bytes (wanted_bytes wanted (settings_meant settings.now)))
        store.old buffer.old (given (tree_of (file_of accepted.now.law.bytes.now))) }
{
    let slots = slots_of(&accepted.law);
    let mut own = [0u32; OWN];
    let listed = gather(accepted, &slots, store, limit, settings, OWN, &mut own)?;
    let formats = Formats {
        law: *accepted,
        slots: &slots,
        store,
        limit,
    };
    write_own(&formats, &own, listed.count, wanted, buffer)
}

// Writes the page of a law without functions: one heading, for which no index is needed.
fn print_none(buffer: &mut [u8]) -> Result<usize, Turned>
    ensures { (settings : Chosen) → told_pair result buffer.new ≡ fitted_bytes 18 buffer.old (given (page settings 0 [])) }
{
    let length = page_length(0);
    if buffer.len() < length {
        return Err(Turned::Page);
    }
    put_heading(0, 1, buffer, 0);
    Ok(length)
}

// Writes what is wanted where there is no finding.
fn none_wanted(wanted: Wanted, buffer: &mut [u8]) -> Result<usize, Turned>
    ensures { (settings : Chosen)
        → told_pair result buffer.new ≡ fitted_bytes (wanted_number wanted) buffer.old (wanted_bytes wanted settings [] []) }
{
    match wanted {
        Wanted::Text(_) => Err(Turned::NoFinding),
        Wanted::Page => print_none(buffer),
    }
}

// Writes what is wanted of a law without functions: there is no finding.
fn write_none(
    settings: &Settings,
    store: &mut [u32],
    limit: usize,
    wanted: Wanted,
    buffer: &mut [u8],
) -> Result<usize, Turned>
    requires { limit ≤ 64 }
    ensures { (bytes : List ℕ) → law_of bytes ≡ given [] → bytes_after result store.new buffer.new
        ≡ bytes_outcome limit (settings_meant settings.now) (wanted_number wanted) (own_bytes (wanted_bytes wanted (settings_meant settings.now)))
        bytes store.old buffer.old }
{
    if !settings.is_allowed() {
        return Err(Turned::Settings);
    }
    if store.len() < store_words(limit) {
        return Err(Turned::Store);
    }
    clear_store(store, limit);
    none_wanted(wanted, buffer)
}

// Writes what is wanted of the findings that the settings show, and the formats in the store.
pub fn write(
    settings: &Settings,
    law: &[u8],
    store: &mut [u32],
    wanted: Wanted,
    buffer: &mut [u8],
) -> Result<usize, Turned>
    ensures { bytes_after result store.new buffer.new
        ≡ bytes_outcome 64 (settings_meant settings.now) (wanted_number wanted) (own_bytes (wanted_bytes wanted (settings_meant settings.now)))
        law.now store.old buffer.old }
{
    if is_empty(law) {
        return write_none(settings, store, LIMIT, wanted, buffer);
    }
    let mut index: Index = [0; 972];
    check_front(settings, law, store.len(), LIMIT, &mut index)?;
    let accepted = AcceptedLaw::new(law, &index);
    write_ready(&accepted, settings, store, LIMIT, wanted, buffer)
}
