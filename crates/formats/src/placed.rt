// What inference reads of a law: the law, the places of its names, and the most shapes in a format.
ghost use mathlib.Core.Sum.{⊎_set};
ghost use Rattle.std.specs.Prelude.{◌≡◌, ◌+◌, ◌≤◌, length};
ghost use Rattle.std.proofs.Props.{props};
ghost use Rattle.file.specs.Sections.{file_of};
ghost use Rattle.law.specs.Code.Index.{Readable};
ghost use Rattle.formats.specs.Code.Slots.{file_names, SlotsOf};

use crate::slots::Slots;
use law::Law;

// A law that refusals 1 to 7 let pass, the places of its names, and a limit on the shapes in a format.
#[derive(Clone, Copy)]
pub struct Placed<'a> {
    pub law: Law<'a, 'a>,
    pub slots: &'a Slots,
    pub limit: usize,
    pub ghost readable: { Readable (file_of law.bytes.now) } by { Prim.hlevel (props, ⊎_set) },
    pub ghost places: { SlotsOf (file_of law.bytes.now) slots.now } by { Prim.hlevel (props, ⊎_set) },
    pub ghost small: { limit ≤ 64 },
}

impl<'a> Placed<'a> {
    // The words of a format: one for its header, and one for each shape.
    pub fn width(&self) -> usize
        ensures { result ≡ self.now.limit + 1 }
    {
        self.limit + 1
    }

    // How many names the law's functions have.
    pub fn names(&self) -> usize
        ensures { result ≡ length (file_names (file_of self.now.law.bytes.now)) }
    {
        usize::from(self.slots.names)
    }
}
