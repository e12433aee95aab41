// Between bit words and the byte layout.
ghost use Rattle.std.specs.Prelude.{◌≡◌, ◌/◌, ◌%◌, ◌^◌, ◌≤◌, ◌<◌};
ghost use Rattle.base.specs.Lists.{all_from};
ghost use Rattle.scope.specs.Names.{contains};
ghost use Rattle.scope.specs.Bytes.{marks_ok, mark_bit, unmarked, word_from, marked, weight};

use crate::ByteScope;
use crate::name_set::NameSet;

// Is every mark at most 31? No way out of the loop: so it becomes vector code.
pub(crate) fn marks_ok(bytes: ByteScope) -> bool
    ensures { result ≡ marks_ok bytes }
{
    let mut small = true;
    for mark in &bytes.marks {
        small = small & (*mark <= 31);
    }
    small
}

// The mark of a name in a set, else 0.
pub(crate) fn weight(names: NameSet, name: u32, mark: u8) -> u8
    requires { mark ≤ 16 }
    ensures { (result ≡ weight (contains names name) mark) × (result ≤ mark) }
{
    if names.contains(name) {
        return mark;
    }
    0
}

fn mark_bit(mark: u8, place: u32) -> u64
    requires { place < 8 }
    ensures { (result ≡ mark / 2 ^ place % 2) × (result < 2) }
{
    ((mark >> place) % 2) as u64
}

// Has none of 64 marks from `from` on bit `place`? No way out of the loop, as above: most words of most scopes are 0.
fn none_marked(marks: &[u8; 128], place: u32, from: usize) -> bool
    requires { (place < 8) × (from ≤ 64) }
    ensures { result ≡ all_from (unmarked marks.now place) from 64 }
{
    let mut none = true;
    for i in 0..64 {
        none = none & (mark_bit(marks[from + i], place) == 0);
    }
    none
}

// Bit `place` of 64 marks from `from` on, the first one's lowest.
fn mark_word(marks: &[u8; 128], place: u32, from: usize) -> u64
    requires { (place < 8) × (from ≤ 64) }
    ensures { result ≡ word_from (mark_bit marks.now place) from 64 }
{
    if none_marked(marks, place, from) {
        return 0;
    }
    let mut word: u64 = 0;
    for left in (0..64).rev() {
        word = word * 2 + mark_bit(marks[from + left], place);
    }
    word
}

// The names whose mark has bit `place`.
pub(crate) fn marked(marks: &[u8; 128], place: u32) -> NameSet
    requires { place < 8 }
    ensures { result ≡ marked marks.now place }
{
    NameSet {
        low: mark_word(marks, place, 0),
        high: mark_word(marks, place, 64),
    }
}
