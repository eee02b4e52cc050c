// The shapes that are no brackets of a format: what they hold, when they share nothing, their join, their words and their letters.
ghost use Rattle.std.specs.Prelude.{◌≡◌};
ghost use Rattle.shapes.specs.Leaf.{holds_brackets, join_leaves, leaves_apart, leaf_word, leaf_at, leaf_byte};
ghost use Rattle.shapes.specs.Code.Leaves.{leaf_meant, symbol_leaf};

use file::Symbol;

// A shape that is no bracket of a format.
#[derive(Clone, Copy, Debug, PartialEq, Eq)]
pub enum Leaf {
    Character,
    Number,
    Identifier,
    Symbol,
    Unknown,
}

impl Leaf {
    // Does this shape hold brackets?
    pub fn holds_brackets(self) -> bool
        ensures { result ≡ holds_brackets (leaf_meant self) }
    {
        matches!(self, Leaf::Unknown)
    }

    // Is no term of both shapes?
    pub fn is_apart(self, other: Leaf) -> bool
        ensures { result ≡ leaves_apart (leaf_meant self) (leaf_meant other) }
    {
        match (self, other) {
            (Leaf::Symbol | Leaf::Unknown, _) | (_, Leaf::Symbol | Leaf::Unknown) => false,
            _ => self != other,
        }
    }

    // The least shape over both.
    pub fn join(self, other: Leaf) -> Leaf
        ensures { leaf_meant result ≡ join_leaves (leaf_meant self) (leaf_meant other) }
    {
        if self == other {
            self
        } else if self.holds_brackets() || other.holds_brackets() {
            Leaf::Unknown
        } else {
            Leaf::Symbol
        }
    }

    // The letter of a shape.
    pub fn letter(self) -> u8
        ensures { result ≡ leaf_byte (leaf_meant self) }
    {
        match self {
            Leaf::Character => b'C',
            Leaf::Number => b'N',
            Leaf::Identifier => b'I',
            Leaf::Symbol => b'S',
            Leaf::Unknown => b'?',
        }
    }
}

// The shape of a symbol.
impl From<Symbol> for Leaf {
    ghost from_gives = { λ symbol leaf. leaf_meant leaf ≡ symbol_leaf symbol };

    fn from(symbol: Symbol) -> Leaf {
        match symbol {
            Symbol::Character(_) => Leaf::Character,
            Symbol::Identifier(_, _) => Leaf::Identifier,
            Symbol::Number(_, _) => Leaf::Number,
        }
    }
}

// The shape that a word says; any word that none is written with says unknown.
impl From<u32> for Leaf {
    ghost from_gives = { λ word leaf. leaf_meant leaf ≡ leaf_at word };

    fn from(word: u32) -> Leaf {
        match word {
            0 => Leaf::Character,
            1 => Leaf::Number,
            2 => Leaf::Identifier,
            3 => Leaf::Symbol,
            _ => Leaf::Unknown,
        }
    }
}

// The word that a shape is written with.
impl From<Leaf> for u32 {
    ghost from_gives = { λ leaf word. word ≡ leaf_word (leaf_meant leaf) };

    fn from(leaf: Leaf) -> u32 {
        leaf as u32
    }
}
