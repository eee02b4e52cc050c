// A law's formats as a store holds them.
ghost use mathlib.Core.Sum.{⊎_set};
ghost use Rattle.std.specs.Prelude.{◌≡◌, ◌*◌, ◌+◌, ◌≤◌, ◌<◌, length};
ghost use Rattle.std.proofs.Props.{props};
ghost use Rattle.file.specs.Sections.{file_of};
ghost use Rattle.law.specs.Code.Index.{PartAt};
ghost use Rattle.formats.specs.Infer.{find};
ghost use Rattle.formats.specs.Code.Slots.{file_names, SlotsOf};
ghost use Rattle.formats.specs.Code.Rows.{format_at, part_shapes};
ghost use Rattle.formats.specs.Code.Turns.{results_in, FormatMade};
ghost use Rattle.formats.specs.Code.Held.{Holds, EachEntry-prop};

use crate::TooWide;
use crate::infer::row_format;
use crate::placed::Placed;
use crate::rows::Known;
use crate::slots::Slots;
use law::AcceptedLaw;

// An accepted law, the places of its names, and a store that holds the formats of its names, of at most so many shapes.
#[derive(Clone, Copy)]
pub struct Formats<'a> {
    pub law: AcceptedLaw<'a, 'a>,
    pub slots: &'a Slots,
    pub store: &'a [u32],
    pub limit: usize,
    pub ghost places: { SlotsOf (file_of law.law.bytes.now) slots.now } by { Prim.hlevel (props, ⊎_set) },
    pub ghost small: { limit ≤ 64 },
    pub ghost holding: { Holds limit (file_names (file_of law.law.bytes.now)) store.now } by { Prim.hlevel (props, EachEntry-prop) },
}

impl<'a> Formats<'a> {
    // The format of a run of term records, every word of it, or zeros where it has too many shapes.
    pub fn row_format(&self, part: &[u8], at: usize, out: &mut [u32]) -> Result<(), TooWide>
        requires { PartAt (file_of self.now.law.law.bytes.now) at part.now × (length out.old ≡ self.now.limit + 1) }
        ensures { FormatMade self.now.limit
            (part_shapes (file_of self.now.law.law.bytes.now) (find (results_in self.now.limit (file_names (file_of self.now.law.law.bytes.now)) self.now.store.now)) at part.now) result out.new }
    {
        let placed = Placed {
            law: self.law.law,
            slots: self.slots,
            limit: self.limit,
        };
        let known = Known {
            placed: &placed,
            store: self.store,
            count: placed.names(),
        };
        row_format(&known, part, at, out)
    }

    // The words of the argument format of the name of a place.
    pub fn argument(&self, place: usize) -> &'a [u32]
        requires { place < length (file_names (file_of self.now.law.law.bytes.now)) }
        ensures { result.now ≡ format_at self.now.limit self.now.store.now (2 * place) }
    {
        let width = self.limit + 1;
        let from = 2 * place * width;
        &self.store[from..from + width]
    }
}
