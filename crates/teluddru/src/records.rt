// Names from records to pairs of words, and a new name into the records.
ghost use Rattle.std.specs.Prelude.{◌≡◌, ◌+◌, ◌*◌, ◌<◌, ◌≤◌, min, length, set};
ghost use Rattle.table.specs.Contents.{contents};
ghost use Rattle.table.specs.Tables.{tables};
ghost use Rattle.teluddru.specs.code.Copying.{held, name_at, Copied};
ghost use Rattle.teluddru.specs.code.Placing.{a_name, place_of, put_at};

use crate::Name;
use name_table::{NameAnswer, NameRefusal};
use table::tables::Tables;

// The first `count` pairs of the words are names. They stand in place, since there is no heap, and the laws of proofs/laws/Passing name this type.
#[derive(Clone, Copy)]
pub(crate) struct NameWords {
    pub words: [u32; 258],
    pub count: usize,
}

impl NameWords {
    // The words of the names.
    fn pairs(&self) -> &[u32]
        requires { self.now.count ≤ 129 }
        ensures { result.now ≡ held self.now }
    {
        let words = &self.words[..];
        &words[..self.count * 2]
    }

    // The lent tables with these names.
    pub(crate) fn among<'a>(
        &'a self,
        nodes: &'a [u32],
        children: &'a [u32],
        numbers: &'a [u64],
        strings: &'a [u8],
        text: &'a [u8],
    ) -> Tables<'a>
        requires { self.now.count ≤ 129 }
        ensures { contents result ≡ tables nodes.now children.now numbers.now (held self.now) strings.now text.now }
    {
        Tables {
            nodes,
            children,
            numbers,
            names: self.pairs(),
            strings,
            text,
        }
    }
}

fn name_at(names: &[Name], i: usize) -> Name
    requires { i < length names.now }
    ensures { result ≡ name_at names.now i }
{
    names[i]
}

// How many of `count` records are copied: one more than the limit of names, so that too many are still too many.
fn copied_count(count: usize) -> usize
    ensures { result ≡ min 129 count }
{
    count.min(129)
}

fn put_pair(words: &mut [u32; 258], i: usize, start: u32, length: u32)
    requires { i < 129 }
    ensures { words.new ≡ set (set words.old (i * 2) start) (i * 2 + 1) length }
{
    let at = i * 2;
    words[at] = start;
    words[at + 1] = length;
}

// Start and length of each record that is copied.
pub(crate) fn copy_names(names: &[Name]) -> NameWords
    ensures { Copied names.now result }
{
    let mut words = [0u32; 258];
    let count = copied_count(names.len());
    for i in 0..count {
        let name = name_at(names, i);
        put_pair(&mut words, i, name.start, name.length);
    }
    NameWords { words, count }
}

// Where a name that was added goes.
pub(crate) fn place_of(answer: Result<NameAnswer, NameRefusal>, used: u32) -> Option<usize>
    ensures { result ≡ place_of answer used }
{
    match answer {
        Ok(NameAnswer::Added { .. }) => Some(used as usize),
        Ok(NameAnswer::Existing { .. }) => None,
        Err(_) => None,
    }
}

pub(crate) fn name_of(start: u32, length: u32) -> Name
    ensures { result ≡ a_name start length }
{
    Name { start, length }
}

// Writes a record, if there is one at the place.
pub(crate) fn put_name(names: &mut [Name], place: Option<usize>, name: Name)
    ensures { names.new ≡ put_at place name names.old }
{
    if let Some(i) = place {
        if i < names.len() {
            names[i] = name;
        }
    }
}
