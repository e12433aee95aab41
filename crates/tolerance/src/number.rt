// Numbers in order, and ranges of them.
ghost use Rattle.std.specs.Prelude.{◌≡◌, get_or};
ghost use Rattle.literal.specs.Literal.{is_number};
ghost use Rattle.tolerance.specs.Tolerance.{at_most, num_order};
ghost use Rattle.tolerance.specs.code.Classes.{equal, larger, smaller};
ghost use Rattle.tolerance.specs.code.Post.{number_in, number_of, is_single, is_open, same_ends, Narrowed};

use literal::is_number;

// Below zero where `sign` is 1. A list may have any words: derived equality and order would tell 0 from 2.
#[derive(Clone, Copy)]
pub(crate) struct Number {
    pub sign: u64,
    pub size: u64,
}

// Word i, or 0 behind the end.
fn word_of(words: &[u64], i: usize) -> u64
    ensures { result ≡ get_or words.now i 0 }
{
    words.get(i).copied().unwrap_or(0)
}

impl Number {
    // Number i of a list, two words a number; 0 behind the end.
    pub(crate) fn read(words: &[u64], i: u32) -> Number
        ensures { result ≡ number_in words.now i }
    {
        let place = i as usize * 2;
        Number {
            sign: word_of(words, place),
            size: word_of(words, place + 1),
        }
    }

    pub(crate) fn at_most(self, other: Number) -> bool
        ensures { result ≡ at_most num_order (number_of self) (number_of other) }
    {
        if self.sign == 1 {
            if other.sign == 1 {
                return other.size <= self.size;
            }
            return true;
        }
        if other.sign == 1 {
            return false;
        }
        self.size <= other.size
    }

    pub(crate) fn is_allowed(self) -> bool
        ensures { result ≡ is_number self.sign self.size }
    {
        is_number(self.sign, self.size)
    }

    fn same(self, other: Number) -> bool
        ensures { result ≡ equal num_order (number_of self) (number_of other) }
    {
        self.at_most(other) && other.at_most(self)
    }

    fn larger(self, other: Number) -> Number
        ensures { number_of result ≡ larger num_order (number_of self) (number_of other) }
    {
        if self.at_most(other) {
            return other;
        }
        self
    }

    fn smaller(self, other: Number) -> Number
        ensures { number_of result ≡ smaller num_order (number_of self) (number_of other) }
    {
        if self.at_most(other) {
            return self;
        }
        other
    }
}

#[derive(Clone, Copy)]
pub(crate) struct Range {
    pub low: Number,
    pub high: Number,
}

impl Range {
    pub(crate) const ZERO: Range = Range {
        low: Number { sign: 0, size: 0 },
        high: Number { sign: 0, size: 0 },
    };

    // Is there a number in it?
    pub(crate) fn is_open(self) -> bool
        ensures { result ≡ is_open self }
    {
        self.low.at_most(self.high)
    }

    // Is there just one?
    pub(crate) fn is_single(self) -> bool
        ensures { result ≡ is_single self }
    {
        self.low.same(self.high)
    }

    pub(crate) fn same(self, other: Range) -> bool
        ensures { result ≡ same_ends self other }
    {
        self.low.same(other.low) && self.high.same(other.high)
    }

    // What both have.
    pub(crate) fn narrowed(self, other: Range) -> Range
        ensures { Narrowed self other result }
    {
        Range {
            low: self.low.larger(other.low),
            high: self.high.smaller(other.high),
        }
    }
}
