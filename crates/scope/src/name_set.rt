// Sets of names as two 64-bit words, a bit a name.
ghost use Rattle.std.specs.Prelude.{◌≡◌, ◌<◌};
ghost use Rattle.scope.specs.Names.{is_name, bit_of, with_bit, without_bit, put_bit, at_name, contains, no_names, size_of};

// A set of names, a bit a name: names 1 to 64 in `low`, 65 to 128 in `high`.
#[derive(Clone, Copy)]
pub struct NameSet {
    pub low: u64,
    pub high: u64,
}

pub(crate) fn is_name(name: u32) -> bool
    ensures { result ≡ is_name name }
{
    if name < 1 {
        return false;
    }
    if 128 < name {
        return false;
    }
    true
}

fn has_bit(word: u64, bit: u32) -> bool
    requires { bit < 64 }
    ensures { result ≡ bit_of word bit }
{
    (word >> bit) % 2 == 1
}

fn with_bit(word: u64, bit: u32) -> u64
    requires { bit < 64 }
    ensures { result ≡ with_bit word bit }
{
    word | (1 << bit)
}

fn without_bit(word: u64, bit: u32) -> u64
    requires { bit < 64 }
    ensures { result ≡ without_bit word bit }
{
    word & !(1 << bit)
}

fn put_bit(word: u64, bit: u32, present: bool) -> u64
    requires { bit < 64 }
    ensures { result ≡ put_bit present word bit }
{
    if present {
        with_bit(word, bit)
    } else {
        without_bit(word, bit)
    }
}

impl NameSet {
    pub(crate) fn empty() -> Self
        ensures { result ≡ no_names }
    {
        Self { low: 0, high: 0 }
    }

    pub(crate) fn contains(self, name: u32) -> bool
        ensures { result ≡ contains self name }
    {
        if !is_name(name) {
            return false;
        }
        if name <= 64 {
            return has_bit(self.low, name - 1);
        }
        has_bit(self.high, name - 65)
    }

    // The set with a name, or without it; the same set for any other number.
    pub(crate) fn put(self, name: u32, present: bool) -> Self
        ensures { result ≡ at_name (put_bit present) self name }
    {
        if !is_name(name) {
            return self;
        }
        if name <= 64 {
            return Self {
                low: put_bit(self.low, name - 1, present),
                high: self.high,
            };
        }
        Self {
            low: self.low,
            high: put_bit(self.high, name - 65, present),
        }
    }

    pub(crate) fn count(self) -> u32
        ensures { result ≡ size_of self }
    {
        u64::count_ones(self.low) + u64::count_ones(self.high)
    }
}
