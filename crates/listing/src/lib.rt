// The calls: the findings of a law, the text of one of them, and all of them on a page.
#![tactic(auto)]

ghost use Rattle.std.specs.Prelude.{List, [], ◌≡◌, ℕ, ◌*◌, ◌≤◌, length};
ghost use Rattle.file.specs.Answer.{given};
ghost use Rattle.file.specs.Sections.{file_of};
ghost use Rattle.law.specs.Law.{law_of};
ghost use Rattle.law.specs.Reading.{tree_of};
ghost use Rattle.buffers.specs.Written.{written};
ghost use Rattle.formats.specs.Store.{store_size};
ghost use Rattle.lints.specs.Levels.{settings_from, listing_words};
ghost use Rattle.lints.specs.Code.Overrides.{settings_meant};
ghost use Rattle.listing.specs.declared.Turned.TheVariants.{File, Shapes};
ghost use Rattle.listing.specs.Outcome.{turned_number, findings_front, findings_outcome, text_outcome, page_outcome};
ghost use Rattle.listing.specs.Code.Gather.{shown_in, Collected};
ghost use Rattle.listing.specs.Promise.{findings_after, bytes_after, FindingsPromise};

use crate::bytes::{Wanted, write};
use crate::front::{LIMIT, check_front, is_empty, store_words};
use crate::gather::{OWN, gather};
use buffers::copy_words;
use file::Refusal;
use findings::all::lint_all;
use formats::TooWide;
use formats::call::clear_store;
use formats::held::Formats;
use formats::slots::slots_of;
use law::{AcceptedLaw, Index};
use lints::levels::Settings;

mod bytes;
mod front;
mod gather;

// Why a call is turned back. `turned_number` of specs/Outcome.antt gives the number of documents 01 and 02.
#[derive(Clone, Copy, PartialEq, Eq, Debug)]
pub enum Turned {
    Settings,
    File(Refusal),
    Store,
    Shapes,
    Findings,
    NoFinding,
    Text,
    Page,
}

// What the findings call lists: how many findings there are, how many rounds ran, and whether the last of these changed nothing.
#[derive(Clone, Copy, Debug, PartialEq, Eq)]
pub struct Listed {
    pub count: usize,
    pub rounds: usize,
    pub settled: bool,
}

// The words of the findings call's own findings for a law of few sentences, 32 places, since it takes time to clear them.
const OWN_FEW: usize = 256;

// The most sentences that are few.
const FEW: usize = 32;

impl From<Refusal> for Turned {
    ghost from_gives = { λ why turned. turned ≡ File why };

    fn from(why: Refusal) -> Turned {
        Turned::File(why)
    }
}

impl From<TooWide> for Turned {
    ghost from_gives = { λ wide turned. turned ≡ Shapes };

    fn from(_wide: TooWide) -> Turned {
        Turned::Shapes
    }
}

// The number of a refusal.
impl From<Turned> for u32 {
    ghost from_gives = { λ why number. number ≡ turned_number why };

    fn from(why: Turned) -> u32 {
        match why {
            Turned::Settings => 14,
            Turned::File(of_file) => u32::from(of_file),
            Turned::Store => 15,
            Turned::Shapes => 10,
            Turned::Findings => 11,
            Turned::NoFinding => 12,
            Turned::Text => 13,
            Turned::Page => 18,
        }
    }
}

// Hands over findings: those of the call's own buffer, or, where that had no place for all, they are collected again.
fn hand_over(formats: &Formats, settings: &Settings, own: &[u32], count: usize, words: &mut [u32])
    requires { Collected formats.now.limit (settings_meant settings.now) formats.now.law.law.bytes.now formats.now.store.now own.now count
        × (8 * count ≤ length words.old) }
    ensures { words.new ≡ written words.old 0 (listing_words (settings_meant settings.now)
        (shown_in formats.now.limit (settings_meant settings.now) formats.now.law.law.bytes.now formats.now.store.now)) }
{
    let end = 8 * count;
    if own.len() < end {
        let lent = words.len();
        let _ = lint_all(formats, settings, lent, words); // they are as many as before
        return;
    }
    copy_words(&own[..end], &mut words[..end]);
}

// The findings call, of a law that is ready, with a buffer of its own of so many words.
fn findings_gathered<const WORDS: usize>(
    accepted: &AcceptedLaw,
    settings: &Settings,
    store: &mut [u32],
    limit: usize,
    out: &mut [u32],
) -> Result<Listed, Turned>
    requires { (limit ≤ 64) × (store_size limit ≤ length store.old) × (WORDS ≤ 2048) }
    ensures { findings_after result store.new out.new
        ≡ findings_front limit (settings_meant settings.now) store.old out.old (given (tree_of (file_of accepted.now.law.bytes.now))) }
{
    let slots = slots_of(&accepted.law);
    let mut own = [0u32; WORDS];
    let room = out.len();
    let listed = gather(accepted, &slots, store, limit, settings, room, &mut own)?;
    let formats = Formats {
        law: *accepted,
        slots: &slots,
        store,
        limit,
    };
    hand_over(&formats, settings, &own, listed.count, out);
    Ok(listed)
}

// The same, with a buffer by the number of sentences.
fn findings_ready(
    accepted: &AcceptedLaw,
    settings: &Settings,
    store: &mut [u32],
    limit: usize,
    words: &mut [u32],
) -> Result<Listed, Turned>
    requires { (limit ≤ 64) × (store_size limit ≤ length store.old) }
    ensures { findings_after result store.new words.new
        ≡ findings_front limit (settings_meant settings.now) store.old words.old (given (tree_of (file_of accepted.now.law.bytes.now))) }
{
    if accepted.law.sentences() <= FEW {
        findings_gathered::<OWN_FEW>(accepted, settings, store, limit, words)
    } else {
        findings_gathered::<OWN>(accepted, settings, store, limit, words)
    }
}

// The findings call, of a law without functions: there are no findings, and one round settles.
fn findings_none(settings: &Settings, store: &mut [u32], limit: usize) -> Result<Listed, Turned>
    requires { limit ≤ 64 }
    ensures { (bytes words : List ℕ) → law_of bytes ≡ given [] → findings_after result store.new words
        ≡ findings_outcome limit (settings_meant settings.now) bytes store.old words }
{
    if !settings.is_allowed() {
        return Err(Turned::Settings);
    }
    if store.len() < store_words(limit) {
        return Err(Turned::Store);
    }
    clear_store(store, limit);
    Ok(Listed {
        count: 0,
        rounds: 1,
        settled: true,
    })
}

// Lists the findings of a law under settings: their number, eight words each, and the formats in the store.
// The three public calls take a mode and overrides one by one, as the exported ones do. Inside they go as `Settings`.
pub fn findings(
    mode: u32,
    overrides: &[u32],
    law: &[u8],
    store: &mut [u32],
    words: &mut [u32],
) -> Result<Listed, Turned>
    ensures { FindingsPromise 64 (settings_from mode overrides.now) law.now store.old words.old store.new words.new result }
{
    let settings = Settings { mode, overrides };
    if is_empty(law) {
        return findings_none(&settings, store, LIMIT);
    }
    let mut index: Index = [0; 972];
    check_front(&settings, law, store.len(), LIMIT, &mut index)?;
    let accepted = AcceptedLaw::new(law, &index);
    findings_ready(&accepted, &settings, store, LIMIT, words)
}

// Writes the text of the finding at a position among those that the settings show.
pub fn text(
    mode: u32,
    overrides: &[u32],
    law: &[u8],
    store: &mut [u32],
    position: usize,
    text: &mut [u8],
) -> Result<usize, Turned>
    ensures { bytes_after result store.new text.new
        ≡ text_outcome 64 (settings_from mode overrides.now) law.now store.old position text.old }
{
    write(
        &Settings { mode, overrides },
        law,
        store,
        Wanted::Text(position),
        text,
    )
}

// Writes the page of the findings that the settings show.
pub fn page(
    mode: u32,
    overrides: &[u32],
    law: &[u8],
    store: &mut [u32],
    page: &mut [u8],
) -> Result<usize, Turned>
    ensures { bytes_after result store.new page.new
        ≡ page_outcome 64 (settings_from mode overrides.now) law.now store.old page.old }
{
    write(
        &Settings { mode, overrides },
        law,
        store,
        Wanted::Page,
        page,
    )
}
