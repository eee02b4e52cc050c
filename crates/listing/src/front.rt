// What turns a call back before anything is inferred: settings (14), the file (1 to 9), the store's length (15), in this order.
ghost use Rattle.std.specs.Prelude.{List, ◌≡◌, ℕ, ◌≤◌, length};
ghost use Rattle.file.specs.Sections.{sections_of};
ghost use Rattle.law.specs.Law.{law_of};
ghost use Rattle.formats.specs.Store.{store_size};
ghost use Rattle.lints.specs.Levels.{settings_allowed};
ghost use Rattle.lints.specs.Code.Overrides.{settings_meant};
ghost use Rattle.listing.specs.Code.Gather.{no_records, empty_file, FrontIs, IndexLeft};

use crate::Turned;
use file::{Sections, sections_of};
use law::{Index, read_law};
use lints::levels::Settings;

// The most shapes in a format.
pub const LIMIT: usize = 64;

// The words of a store: 128 formats of so many shapes.
pub fn store_words(limit: usize) -> usize
    requires { limit ≤ 64 }
    ensures { result ≡ store_size limit }
{
    128 * (limit + 1)
}

// Are there no functions, sentences, conditions and terms?
fn no_records(sections: Sections) -> bool
    ensures { result ≡ no_records sections }
{
    sections.functions == 0
        && sections.sentences == 0
        && sections.conditions == 0
        && sections.terms == 0
}

// Whether bytes are a file that has none of these. Just these are the laws without functions (`empty_law` and `law_empty` of
// proofs/EmptyLaws.antt), and no index need be made to see it.
pub fn is_empty(law: &[u8]) -> bool
    ensures { result ≡ empty_file (sections_of law.now) }
{
    sections_of(law).is_ok_and(no_records)
}

// Checks settings, a file, and that so many words are a store; `FrontIs` of specs/Code/Gather.antt says what either answer means. The index of a law is filled.
pub fn check_front(
    settings: &Settings,
    law: &[u8],
    words: usize,
    limit: usize,
    index: &mut Index,
) -> Result<(), Turned>
    requires { (length index.old ≡ 972) × (limit ≤ 64) }
    ensures { ((store : List ℕ) → length store ≡ words → FrontIs limit (settings_meant settings.now) law.now store result index.new)
        × IndexLeft (settings_allowed (settings_meant settings.now)) (law_of law.now) law.now index.old index.new }
{
    if !settings.is_allowed() {
        return Err(Turned::Settings);
    }
    read_law(law, index)?;
    if words < store_words(limit) {
        return Err(Turned::Store);
    }
    Ok(())
}
