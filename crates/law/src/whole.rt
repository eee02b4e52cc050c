// The terms of a part of the term records, one after another. What is inside a term is passed over.
ghost use Rattle.std.specs.Prelude.{◌≡◌, ◌≤◌, ◌<◌, length};
ghost use Rattle.std.specs.Iterator.{item_count};
ghost use Rattle.file.specs.Forest.{rest};
ghost use Rattle.law.specs.Runs.{end_of};
ghost use Rattle.law.specs.Code.Whole.{term_parts, YieldsTerm};

use crate::runs::end_of;

// What a part has behind its first term.
pub fn after(part: &[u8]) -> &[u8]
    requires { 24 ≤ length part.now }
    ensures { (result.now ≡ rest 24 end_of part.now) × (length result.now < length part.now) }
{
    &part[end_of(part)..]
}

// Goes over the terms of a part. Each item is what the part has from a term on.
#[derive(Clone, Copy)]
pub struct Terms<'a>(pub &'a [u8]);

impl<'a> Iterator for Terms<'a> {
    type Item = &'a [u8];

    ghost next_gives = { λ before item later. YieldsTerm before.0.now item later.0.now };

    ghost remaining = { item_count (λ terms. term_parts terms.0.now) };

    fn next(&mut self) -> Option<&'a [u8]> {
        let part = self.0;
        if part.len() < 24 {
            return None;
        }
        self.0 = after(part);
        Some(part)
    }
}
