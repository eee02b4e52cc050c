// The eight words of a finding, as numbers.
ghost use Rattle.std.specs.Prelude.{◌≡◌, ◌<◌, length, get_or};

// The word at a position.
pub fn word(words: &[u32], i: usize) -> usize
    requires { i < length words.now }
    ensures { (result ≡ get_or words.now i 0) × (result < 4294967296) }
{
    words[i] as usize
}
