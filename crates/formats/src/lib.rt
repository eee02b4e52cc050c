// Formats of a law, inferred by rounds.
#![tactic(auto)]

ghost use Rattle.std.specs.Prelude.{◌≡◌};
ghost use Rattle.file.specs.Answer.{given};
ghost use Rattle.file.specs.Sections.{file_of};
ghost use Rattle.law.specs.Code.Index.{Readable};
ghost use Rattle.law.specs.Reading.{tree_of};
ghost use Rattle.formats.specs.Call.{law_outcome, call_outcome, infer_outcome};

use crate::call::infer_store;
use crate::placed::Placed;
pub use crate::slots::Slots;
use crate::slots::slots_of;
use file::Refusal;
use law::{INDEX_WORDS, Index, Law, read_law};

pub mod call;
pub mod held;
pub mod infer;
pub mod placed;
pub mod rows;
pub mod slots;

// The most shapes in a format.
const SHAPES: usize = 64;

// The words of a format of so many shapes.
const FORMAT: usize = SHAPES + 1;

// The formats of a store.
const FORMATS: usize = 128;

// A row has more shapes than a format may have.
#[derive(Clone, Copy, Debug, PartialEq, Eq)]
pub struct TooWide;

// How many rounds ran, and whether the last changed nothing.
#[derive(Clone, Copy, Debug, PartialEq, Eq)]
pub struct Inferred {
    pub rounds: usize,
    pub settled: bool,
}

// Why no formats are inferred. `infer_answer` of specs/Call.antt gives document 01's number of each.
#[derive(Clone, Copy, Debug, PartialEq, Eq)]
pub enum Unformed {
    Refused(Refusal),
    TooWide,
    StoreShort,
}

impl From<Refusal> for Unformed {
    ghost use Rattle.formats.specs.declared.Unformed.TheVariants as variants;

    ghost from_gives = { λ why unformed. unformed ≡ variants.Refused why };

    fn from(why: Refusal) -> Unformed {
        Unformed::Refused(why)
    }
}

impl From<TooWide> for Unformed {
    ghost use Rattle.formats.specs.declared.Unformed.TheVariants as variants;

    ghost from_gives = { λ wide unformed. unformed ≡ variants.TooWide };

    fn from(_wide: TooWide) -> Unformed {
        Unformed::TooWide
    }
}

// Infers the formats of an accepted law into a store.
fn infer_accepted(law: &Law, store: &mut [u32]) -> Result<Inferred, Unformed>
    requires { Readable (file_of law.now.bytes.now) }
    ensures { infer_outcome result store.new ≡ law_outcome 64 store.old (given (tree_of (file_of law.now.bytes.now))) }
{
    if store.len() < FORMATS * FORMAT {
        return Err(Unformed::StoreShort);
    }
    let slots = slots_of(law);
    let placed = Placed {
        law: *law,
        slots: &slots,
        limit: SHAPES,
    };
    let inferred = infer_store(&placed, store)?;
    Ok(inferred)
}

// Infers the formats of a law into a store; the answer says how many rounds ran and whether the last changed nothing.
pub fn infer_formats(law: &[u8], store: &mut [u32]) -> Result<Inferred, Unformed>
    ensures { infer_outcome result store.new ≡ call_outcome 64 law.now store.old }
{
    let mut index: Index = [0; INDEX_WORDS];
    read_law(law, &mut index)?;
    let law = Law {
        bytes: law,
        index: &index,
    };
    infer_accepted(&law, store)
}
