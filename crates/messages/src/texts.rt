// The text of a finding, written into a lent buffer: fixed pieces, and names, numbers and formats between them.
//
// Each function puts its text after what stands there, as far as there is room. It asks that positions are numbers of a machine:
// besides a name, which stands in it twice at most, a text has fewer than 8,192 bytes. What the text is stands in the crate
// `lints`, specs/Message.antt.
ghost use Rattle.std.specs.Prelude.{◌≡◌, ◌+◌, ◌*◌, ◌≤◌, length};
ghost use Rattle.law.specs.Tree.{Name};
ghost use Rattle.shapes.specs.Words.{read_format};
ghost use Rattle.shapes.specs.Display.{display};
ghost use Rattle.buffers.specs.Code.Put.{largest};
ghost use Rattle.buffers.specs.Code.Text.{Puts};
ghost use Rattle.lints.specs.Finding.{dead, by_formats, by_literals, fails, open_pattern};
ghost use Rattle.lints.specs.Message.{owner_text, call_text, failure_text, claim_text};
ghost use Rattle.lints.specs.Code.Part.{failure_meant};

use buffers::Text;
use lints::builtin::Failure;
use shapes::display::show_format;

// A format.
fn put_format(text: &mut Text, format: &[u32])
    requires { text.old.at + 4096 ≤ largest }
    ensures { Puts text.old text.new (display (read_format format.now)) }
{
    text.at = show_format(format, text.out, text.at);
}

// Whose sentence is dead: a function's, or that of a block in it.
fn put_owner(text: &mut Text, owner: &[u8], in_block: bool)
    requires { text.old.at + length owner.now + 13 ≤ largest }
    ensures { (text.new.at ≤ text.old.at + length owner.now + 13)
        × ((f : Name) → f.spelled ≡ owner.now → Puts text.old text.new (owner_text in_block f)) }
{
    if in_block {
        text.put(b"a block in `");
        text.put(owner);
        text.put(b"`");
    } else {
        text.put(owner);
    }
}

// How the text on a call begins.
fn put_call(text: &mut Text, callee: &[u8])
    requires { text.old.at + length callee.now + 23 ≤ largest }
    ensures { (text.new.at ≤ text.old.at + length callee.now + 23)
        × ((f : Name) → f.spelled ≡ callee.now → Puts text.old text.new (call_text f)) }
{
    text.put(b"`<");
    text.put(callee);
    text.put(b" ...>` always fails: ");
}

// A sentence is dead: its number, and that of the earlier sentence that shadows it.
pub fn put_dead(text: &mut Text, owner: &[u8], in_block: bool, later: usize, earlier: usize)
    requires { text.old.at + 2 * length owner.now + 8192 ≤ largest }
    ensures { (f : Name) → f.spelled ≡ owner.now
        → Puts text.old text.new (claim_text f (dead in_block later earlier)) }
{
    text.put(b"sentence ");
    text.put_decimal(later);
    text.put(b" of `");
    put_owner(text, owner, in_block);
    text.put(b"` is unreachable: sentence ");
    text.put_decimal(earlier);
    text.put(b" has no conditions and already matches every argument this one matches");
}

// A call always fails by formats: that which the function accepts, and that which the call passes.
pub fn put_by_formats(text: &mut Text, callee: &[u8], accepted: &[u32], passed: &[u32])
    requires { text.old.at + 2 * length callee.now + 8192 ≤ largest }
    ensures { (owner f : Name) → f.spelled ≡ callee.now
        → Puts text.old text.new (claim_text owner (by_formats f (read_format accepted.now) (read_format passed.now))) }
{
    put_call(text, callee);
    text.put(b"`");
    text.put(callee);
    text.put(b"` accepts ");
    put_format(text, accepted);
    text.put(b", but this call passes ");
    put_format(text, passed);
}

// A call with a literal argument always fails.
pub fn put_by_literals(text: &mut Text, callee: &[u8])
    requires { text.old.at + 2 * length callee.now + 8192 ≤ largest }
    ensures { (owner f : Name) → f.spelled ≡ callee.now
        → Puts text.old text.new (claim_text owner (by_literals f)) }
{
    put_call(text, callee);
    text.put(b"no sentence of `");
    text.put(callee);
    text.put(b"` matches this argument");
}

// Why a builtin call fails, in words.
fn failure_words(why: Failure) -> &'static [u8]
    ensures { (result.now ≡ failure_text (failure_meant why)) × (length result.now ≤ 64) }
{
    match why {
        Failure::TwoIntegersWanted => b"expected exactly two integer numbers",
        Failure::DivisionByZero => b"division by zero",
        Failure::DigitsWanted => b"expected a non-empty character string of decimal digits",
    }
}

// A builtin call always fails.
pub fn put_fails(text: &mut Text, callee: &[u8], why: Failure)
    requires { text.old.at + 2 * length callee.now + 8192 ≤ largest }
    ensures { (owner f : Name) → f.spelled ≡ callee.now
        → Puts text.old text.new (claim_text owner (fails f (failure_meant why))) }
{
    put_call(text, callee);
    text.put(failure_words(why));
}

// A sentence's pattern has this many e. variables.
pub fn put_open(text: &mut Text, owner: &[u8], count: usize)
    requires { text.old.at + 2 * length owner.now + 8192 ≤ largest }
    ensures { (f : Name) → f.spelled ≡ owner.now
        → Puts text.old text.new (claim_text f (open_pattern count)) }
{
    text.put(b"sentence of `");
    text.put(owner);
    text.put(b"` has ");
    text.put_decimal(count);
    text.put(
        b" `e.`-variables in its pattern; matching may backtrack proportionally to the argument length to the power ",
    );
    text.put_decimal(count);
}
