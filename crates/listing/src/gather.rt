// A law's formats into a store, and its findings into a buffer.
ghost use Rattle.std.specs.Prelude.{◌≤◌, length};
ghost use Rattle.file.specs.Sections.{file_of};
ghost use Rattle.formats.specs.Store.{store_size};
ghost use Rattle.formats.specs.Code.Slots.{SlotsOf};
ghost use Rattle.lints.specs.Code.Overrides.{settings_meant};
ghost use Rattle.listing.specs.Code.Gather.{GatherIs, StoreFilled};

use crate::{Listed, Turned};
use findings::Ended;
use findings::all::lint_all;
use formats::Inferred;
use formats::call::{clear_store, infer_store};
use formats::held::Formats;
use formats::placed::Placed;
use formats::slots::Slots;
use law::AcceptedLaw;
use lints::levels::Settings;

// The words of a call's own findings: 256 places.
pub const OWN: usize = 2048;

// The findings of a law whose formats are in the store, counted up to the room that there is.
// The store goes beside the slots and the limit, since it is cleared here: `Formats` only reads one.
fn gather_findings(
    accepted: &AcceptedLaw,
    slots: &Slots,
    store: &mut [u32],
    limit: usize,
    settings: &Settings,
    room: usize,
    out: &mut [u32],
    inferred: Inferred,
) -> Result<Listed, Turned>
    requires { SlotsOf (file_of accepted.now.law.bytes.now) slots.now × (limit ≤ 64) × (store_size limit ≤ length store.old)
        × StoreFilled limit (file_of accepted.now.law.bytes.now) store.old inferred }
    ensures { GatherIs limit (settings_meant settings.now) room accepted.now.law.bytes.now store.old store.new out.old out.new result }
{
    let formats = Formats {
        law: *accepted,
        slots,
        store: &*store,
        limit,
    };
    match lint_all(&formats, settings, room, out) {
        Ok(count) => Ok(Listed {
            count,
            rounds: inferred.rounds,
            settled: inferred.settled,
        }),
        Err(Ended::TooWide) => {
            clear_store(store, limit);
            Err(Turned::Shapes)
        }
        Err(Ended::Full) => Err(Turned::Findings),
    }
}

// The formats of a law, and its findings under given settings, counted up to the room that there is.
pub fn gather(
    accepted: &AcceptedLaw,
    slots: &Slots,
    store: &mut [u32],
    limit: usize,
    settings: &Settings,
    room: usize,
    out: &mut [u32],
) -> Result<Listed, Turned>
    requires { SlotsOf (file_of accepted.now.law.bytes.now) slots.now × (limit ≤ 64) × (store_size limit ≤ length store.old) }
    ensures { GatherIs limit (settings_meant settings.now) room accepted.now.law.bytes.now store.old store.new out.old out.new result }
{
    let placed = Placed {
        law: accepted.law,
        slots,
        limit,
    };
    let inferred = infer_store(&placed, store)?;
    gather_findings(accepted, slots, store, limit, settings, room, out, inferred)
}
