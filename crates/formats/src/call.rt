// Inference of a law's formats into a lent store, from its start to its end.
ghost use Rattle.std.specs.Prelude.{List, ◌++◌, ◌≡◌, ℕ, ◌+◌, ◌*◌, ◌≤◌, length, drop, replicate};
ghost use Rattle.file.specs.Sections.{file_of};
ghost use Rattle.law.specs.Reading.{tree_of};
ghost use Rattle.shapes.specs.Format.{never};
ghost use Rattle.formats.specs.Infer.{all_at, infer};
ghost use Rattle.formats.specs.Store.{store_size};
ghost use Rattle.formats.specs.Code.Entries.{StoreHolds, start_of};
ghost use Rattle.formats.specs.Code.Slots.{file_names};
ghost use Rattle.formats.specs.Code.Turns.{StartedIs, InferIs};

use crate::infer::{infer_arguments, infer_rounds};
use crate::placed::Placed;
use crate::{FORMAT, FORMATS, Inferred, TooWide};
use shapes::NEVER;

// The rounds that may run past one for each name.
const MORE_ROUNDS: usize = 4;

// Sets a store's words to zero; words past it are kept.
pub fn clear_store(store: &mut [u32], limit: usize)
    requires { (limit ≤ 64) × (store_size limit ≤ length store.old) }
    ensures { store.new ≡ replicate (store_size limit) 0 ++ drop (store_size limit) store.old }
{
    store[..FORMATS * (limit + 1)].fill(0);
}

// Sets the first so many formats of a store to never, and its other words to zero.
fn start_store(store: &mut [u32], limit: usize, most: usize)
    requires { (limit ≤ 64) × (most ≤ 128) × (store_size limit ≤ length store.old) }
    ensures { store.new ≡ start_of limit most ++ drop (store_size limit) store.old }
{
    clear_store(store, limit);
    for k in 0..most {
        store[k * (limit + 1)] = NEVER;
    }
}

// The argument formats, then the rounds, in a store where every format is never.
fn infer_started(placed: &Placed, store: &mut [u32]) -> Result<Inferred, TooWide>
    requires { (tail : List ℕ) × StoreHolds placed.now.limit (file_names (file_of placed.now.law.bytes.now)) (all_at never (file_names (file_of placed.now.law.bytes.now))) (all_at never (file_names (file_of placed.now.law.bytes.now))) tail store.old }
    ensures { (tail : List ℕ) → StoreHolds placed.now.limit (file_names (file_of placed.now.law.bytes.now)) (all_at never (file_names (file_of placed.now.law.bytes.now))) (all_at never (file_names (file_of placed.now.law.bytes.now))) tail store.old
        → StartedIs placed.now.limit (file_names (file_of placed.now.law.bytes.now)) (infer placed.now.limit (tree_of (file_of placed.now.law.bytes.now))) tail store.new result }
{
    let mut joined = [0; FORMAT];
    let joined = &mut joined[..placed.width()];
    infer_arguments(placed, store, joined)?;
    infer_rounds(placed, store, placed.names() + MORE_ROUNDS, joined)
}

// The formats of a law in a store, or zeros where a row has too many shapes.
pub fn infer_store(placed: &Placed, store: &mut [u32]) -> Result<Inferred, TooWide>
    requires { store_size placed.now.limit ≤ length store.old }
    ensures { InferIs placed.now.limit (infer placed.now.limit (tree_of (file_of placed.now.law.bytes.now))) store.old store.new result }
{
    start_store(store, placed.limit, 2 * placed.names());
    let inferred = infer_started(placed, store);
    if inferred.is_err() {
        clear_store(store, placed.limit);
    }
    inferred
}
