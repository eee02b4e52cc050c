// Where a law's names stand among its sorted folded names (specs/Code/Slots.antt).
ghost use Rattle.std.specs.Prelude.{◌≡◌, true, Bool, not, ◌+◌, ◌*◌, ◌≤◌, ◌<◌, length};
ghost use Rattle.names.specs.Name.{folded};
ghost use Rattle.file.specs.Word.{word_at};
ghost use Rattle.file.specs.Sections.{file_of};
ghost use Rattle.file.specs.Fields.{fields_allowed};
ghost use Rattle.formats.specs.Code.Slots.{position, function_folded, call_folded, file_names, SlotsOf, is_last, counted, NamedFrom, LastAre, Places, KeptFrom, SlotsUpTo};

use law::{AllowedLaw, Law};
use names::{name_in, names_equal, names_order};

// The kind of a term record that is a call.
const CALL: usize = 7;

// The places of names, filled once, so that no call's name is looked up again in each round: of each function's name, and of each call's, which
// is the number of names where no function has it; how many names there are; and whether a term record is a call.
#[derive(Clone, Copy, Debug, PartialEq, Eq)]
pub struct Slots {
    pub functions: [u8; 64],
    pub calls: [u8; 512],
    pub names: u8,
    pub has_call: bool,
}

// The first function from `from` on that has a name.
fn first_named(allowed: &AllowedLaw, name: &[u8], from: usize) -> Option<usize>
    requires { from ≤ (file_of allowed.now.law.bytes.now).functions.count }
    ensures { NamedFrom (file_of allowed.now.law.bytes.now) from (folded name.now) result }
{
    for f in from..allowed.law.functions() {
        if names_equal(allowed.law.function_name(f), name) {
            return Some(f);
        }
    }
    None
}

// Has no later function the name of the function f? So each name counts once.
fn is_last(allowed: &AllowedLaw, f: usize) -> bool
    requires { f < (file_of allowed.now.law.bytes.now).functions.count }
    ensures { result ≡ is_last (file_of allowed.now.law.bytes.now) f }
{
    first_named(allowed, allowed.law.function_name(f), f + 1).is_none()
}

// Writes which functions are the last of their name, and answers the number of names.
fn fill_last(allowed: &AllowedLaw, last: &mut [bool; 64]) -> u8
    ensures names { result ≡ length (file_names (file_of allowed.now.law.bytes.now)) }
    ensures last { LastAre (file_of allowed.now.law.bytes.now) last.new }
{
    let mut found = 0;
    for f in 0..allowed.law.functions() {
        let counts = is_last(allowed, f);
        last[f] = counts;
        found += u8::from(counts);
    }
    found
}

// Is the function g the last of its name, and does that come before the given name?
// `last` goes beside the law, here and below: for three functions a struct with `LastAre` in a ghost field is no plainer.
fn is_counted(allowed: &AllowedLaw, last: &[bool; 64], name: &[u8], g: usize) -> bool
    requires { LastAre (file_of allowed.now.law.bytes.now) last.now × (g < (file_of allowed.now.law.bytes.now).functions.count) }
    ensures { result ≡ counted (file_of allowed.now.law.bytes.now) (folded name.now) g }
{
    last[g] && names_order(allowed.law.function_name(g), name).is_lt()
}

// The place of the name of the function f: the number of names that come before it.
fn place(allowed: &AllowedLaw, last: &[bool; 64], f: usize) -> u8
    requires { LastAre (file_of allowed.now.law.bytes.now) last.now × (f < (file_of allowed.now.law.bytes.now).functions.count) }
    ensures { result ≡ position (file_names (file_of allowed.now.law.bytes.now)) (function_folded (file_of allowed.now.law.bytes.now) f) }
{
    let name = allowed.law.function_name(f);
    let mut found = 0;
    for g in 0..allowed.law.functions() {
        found += u8::from(is_counted(allowed, last, name, g));
    }
    found
}

// Writes the place of the name of each function.
fn fill_functions(allowed: &AllowedLaw, last: &[bool; 64], places: &mut [u8; 64])
    requires { LastAre (file_of allowed.now.law.bytes.now) last.now }
    ensures places { Places (file_of allowed.now.law.bytes.now) places.new }
    ensures kept { KeptFrom places.old places.new (file_of allowed.now.law.bytes.now).functions.count }
{
    for f in 0..allowed.law.functions() {
        places[f] = place(allowed, last, f);
    }
}

// The place of the name of the call at the term record t.
fn callee_place(allowed: &AllowedLaw, slots: &Slots, t: usize) -> u8
    requires { Places (file_of allowed.now.law.bytes.now) slots.now.functions × (slots.now.names ≡ length (file_names (file_of allowed.now.law.bytes.now)))
        × (t < (file_of allowed.now.law.bytes.now).terms.count) × (word_at (file_of allowed.now.law.bytes.now).terms.records (24 * t) ≡ 7) }
    ensures { result ≡ position (file_names (file_of allowed.now.law.bytes.now)) (call_folded (file_of allowed.now.law.bytes.now) t) }
{
    let start = allowed.law.term_word(t, 4);
    let len = allowed.law.term_word(t, 8);
    match first_named(allowed, name_in(allowed.law.text(), start, len), 0) {
        Some(f) => slots.functions[f],
        None => slots.names,
    }
}

// Writes the place of the name of each call, and that there is one. The slots of other terms stay 0.
fn fill_calls(allowed: &AllowedLaw, slots: &mut Slots)
    requires { SlotsUpTo (file_of allowed.now.law.bytes.now) slots.old 0 }
    ensures { SlotsUpTo (file_of allowed.now.law.bytes.now) slots.new (file_of allowed.now.law.bytes.now).terms.count }
{
    for t in 0..allowed.law.terms() {
        if allowed.law.term_word(t, 0) == CALL {
            slots.calls[t] = callee_place(allowed, slots, t);
            slots.has_call = true;
        }
    }
}

// The slots of a law.
pub fn slots_of(law: &Law) -> Slots
    requires { fields_allowed (file_of law.now.bytes.now) ≡ true }
    ensures { SlotsOf (file_of law.now.bytes.now) result }
{
    let allowed = AllowedLaw { law: *law };
    let mut last = [false; 64];
    let names = fill_last(&allowed, &mut last);
    let mut functions = [0; 64];
    fill_functions(&allowed, &last, &mut functions);
    let mut slots = Slots {
        functions,
        calls: [0; 512],
        names,
        has_call: false,
    };
    fill_calls(&allowed, &mut slots);
    slots
}
