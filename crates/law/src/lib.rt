// A law: the runs, blocks, depth and patterns of a file (refusals 6 to 9), and where things stand in it.
#![tactic(auto)]

ghost use Rattle.std.specs.Prelude.{◌≡◌, true, length, OnOk};
ghost use Rattle.file.specs.Answer.{given};
ghost use Rattle.file.specs.Sections.{sections_of, file_of};
ghost use Rattle.file.specs.Code.Counts.{counts_of};
ghost use Rattle.file.specs.Fields.{fields_allowed};
ghost use Rattle.law.specs.Code.Index.{Indexed};
ghost use Rattle.law.specs.Law.{check_answer, check_of};
ghost use Rattle.law.specs.Code.Accepted.{IndexAfter};

use crate::index::place_records;
pub use crate::places::{AcceptedLaw, AllowedLaw, Law};
use file::{Refusal, Sections, fields_allowed, sections_of};

mod blocks;
pub mod depth;
mod index;
mod patterns;
pub mod places;
pub mod runs;
pub mod whole;

pub const INDEX_WORDS: usize = 972;

// The words that say where things stand in a law: eight for its sections, then five tables (specs/Code/Index.antt).
pub type Index = [u16; INDEX_WORDS];

// Where the tables of an index begin.
const FIRST_SENTENCES: usize = 8;

const FIRST_CONDITIONS: usize = 73;

const CONDITION_TERMS: usize = 202;

const SENTENCE_TERMS: usize = 331;

const BLOCKS: usize = 460;

// Refusals 6 to 9 of a file whose sections are used up exactly. `check_answer` of specs/Law.antt gives document 01's number for each.
fn check_placed(law: &Law) -> Result<(), Refusal>
    requires { fields_allowed (file_of law.now.bytes.now) ≡ true }
    ensures { check_answer result ≡ check_of law.now.bytes.now }
{
    if !law.runs_fit() {
        return Err(Refusal::Runs);
    }
    if !law.blocks_allowed() {
        return Err(Refusal::Blocks);
    }
    if !law.depth_allowed() {
        return Err(Refusal::Depth);
    }
    if !law.patterns_allowed() {
        return Err(Refusal::Patterns);
    }
    Ok(())
}

// The check of a file that is cut into its sections. The index of an accepted one is filled.
fn check_sections(law: &[u8], sections: Sections, index: &mut Index) -> Result<(), Refusal>
    requires { (sections_of law.now ≡ given (file_of law.now)) × (counts_of (file_of law.now) ≡ sections) × (length index.old ≡ 972) }
    ensures { (check_answer result ≡ check_of law.now) × OnOk result (Indexed law.now index.new) }
{
    if !fields_allowed(law, sections) {
        return Err(Refusal::Fields);
    }
    if place_records(law, sections, index) {
        check_placed(&Law {
            bytes: law,
            index: &*index,
        })
    } else {
        Err(Refusal::Runs)
    }
}

// The check of any bytes. The index of a law is filled.
fn check_bytes(law: &[u8], index: &mut Index) -> Result<(), Refusal>
    requires { length index.old ≡ 972 }
    ensures { (check_answer result ≡ check_of law.now) × OnOk result (Indexed law.now index.new) }
{
    let sections = sections_of(law)?;
    check_sections(law, sections, index)
}

// Whether any bytes are a law, with the index of an accepted one.
pub fn read_law(law: &[u8], index: &mut Index) -> Result<(), Refusal>
    requires { length index.old ≡ 972 }
    ensures { (check_answer result ≡ check_of law.now) × IndexAfter result law.now index.new }
{
    if let Err(why) = check_bytes(law, index) {
        *index = [0; INDEX_WORDS];
        return Err(why);
    }
    Ok(())
}

// Whether any bytes are a law.
pub fn check_law(law: &[u8]) -> Result<(), Refusal>
    ensures { check_answer result ≡ check_of law.now }
{
    let mut index: Index = [0; INDEX_WORDS];
    read_law(law, &mut index)
}
