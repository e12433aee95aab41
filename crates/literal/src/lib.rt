// Literals as keys: their order and their text (value/mod.rs and number.rs, as far as keys need them).
#![tactic(auto)]

mod key;
pub mod order;
pub mod text;

ghost use Rattle.std.specs.Prelude.{◌≡◌};
ghost use Rattle.literal.specs.Literal.{is_number};

// A literal by its place in the lent stores: numbers in the number list (two words each: 1 for below
// zero or 0, then the size), strings in the string store, raw strings in the rule text.
#[derive(Clone, Copy)]
pub enum LiteralRef {
    Null,
    False,
    True,
    Number { place: usize },
    String { start: usize, count: usize },
    RawString { start: usize, count: usize },
}

// NoLiteral: a place outside its store, or two words that say no number.
#[derive(Clone, Copy)]
pub enum Comparison {
    Less,
    Equal,
    Greater,
    NoLiteral,
}

// Where the text of a key stands: in the lent bytes, or in the first bytes of the caller's array.
// Three ways to answer, so no Option or Result says them.
#[derive(Clone, Copy)]
pub enum KeyText {
    Lent,
    Written { length: usize },
    NoText,
}

// Do the two words of a number say one?
pub fn is_number(below: u64, size: u64) -> bool
    ensures { result ≡ is_number below size }
{
    if below == 0 {
        return true;
    }
    if below == 1 {
        if size == 0 {
            return false;
        }
        return size <= 9223372036854775808;
    }
    false
}
