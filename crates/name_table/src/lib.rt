// Adding a name to the lent name table.
#![tactic(auto)]

ghost use Rattle.table.specs.Contents.{contents};
ghost use Rattle.table.specs.Tables.{tables};
ghost use Rattle.table.specs.Check.{tested_of};
ghost use Rattle.std.specs.Prelude.{◌≡◌, ◌≤◌};
ghost use Rattle.name_table.specs.Adding.{has_names, checked_in_use, allowed, number_from, number_or_none, at_end, add_outcome};
ghost use Rattle.name_table.specs.Answer.{NameAddedIn};

use scope::Scope;
use table::limits::within_limits;
use table::reading::{name_bytes, same_bytes};
use table::tables::Tables;
use table::{TableRefusal, check};

// The number of the name with these bytes: it stood in the table, or was added.
#[derive(Clone, Copy)]
pub enum NameAnswer {
    Existing { name: u32 },
    Added { name: u32 },
}

// A name that the table rules don't allow is refused as BreaksRules.
#[derive(Clone, Copy)]
pub enum NameRefusal {
    TableRefused(TableRefusal),
    NoPlace,
}

impl From<TableRefusal> for NameRefusal {
    ghost use Rattle.name_table.specs.declared.NameRefusal.TheVariants.{TableRefused};

    ghost from_gives = { λ refused r. r ≡ TableRefused refused };

    fn from(refused: TableRefusal) -> NameRefusal {
        NameRefusal::TableRefused(refused)
    }
}

// Is the name table whole pairs, with a place for each name in use?
fn has_names(names: &[u32], used: u32) -> bool
    ensures { result ≡ has_names names.now used }
{
    if names.len() % 2 != 0 {
        return false;
    }
    used as usize <= names.len() / 2
}

// The table check of the names in use, which are the first of the lent table.
fn check_in_use(tables: &Tables<'_>, used: u32) -> Result<(), TableRefusal>
    ensures { tested_of result ≡ checked_in_use (contents tables.now) used }
{
    if 128 < used {
        return Err(TableRefusal::OverLimit);
    }
    if has_names(tables.names, used) {
        let words = used as usize * 2;
        let names = &tables.names[..words];
        return check(&Tables { names, ..*tables }, Scope::new(0, false));
    }
    let names = &tables.names[..0];
    if within_limits(&Tables { names, ..*tables }) {
        return Err(TableRefusal::BreaksRules);
    }
    Err(TableRefusal::OverLimit)
}

// May a name have this range of the text?
fn is_allowed(text: &[u8], start: u32, size: u32) -> bool
    ensures { result ≡ allowed text.now start size }
{
    if size < 1 {
        return false;
    }
    if 255 < size {
        return false;
    }
    start as usize + size as usize <= text.len()
}

// The first of the names in use that has these bytes.
fn number_of(names: &[u32], text: &[u8], used: u32, bytes: &[u8]) -> Option<u32>
    requires { used ≤ 128 }
    ensures { result ≡ number_or_none (number_from names.now text.now bytes.now 1 used) }
{
    for name in 1..=used {
        if same_bytes(name_bytes(names, text, name), bytes) {
            return Some(name);
        }
    }
    None
}

// Puts a name into the first free place, if there is one and it is no 129th name.
fn put_name(names: &mut [u32], used: u32, start: u32, size: u32) -> Result<NameAnswer, NameRefusal>
    ensures { NameAddedIn names (at_end names.old used) used start size result }
{
    let at = used as usize * 2;
    let last = at + 1;
    if names.len() <= last {
        return Err(NameRefusal::NoPlace);
    }
    if 127 < used {
        return Err(NameRefusal::NoPlace);
    }
    names[at] = start;
    names[last] = size;
    Ok(NameAnswer::Added { name: used + 1 })
}

// Adds the name that stands at a range of the text. The first `used` places of the table hold names, the others are free.
pub fn add_name<'a>(
    nodes: &[u32],
    children: &[u32],
    numbers: &[u64],
    names: &mut [u32],
    strings: &'a [u8],
    text: &'a [u8],
    used: u32,
    start: u32,
    size: u32,
) -> Result<NameAnswer, NameRefusal>
    ensures { NameAddedIn names (add_outcome (tables nodes.now children.now numbers.now names.old strings.now text.now) used start size) used start size result }
{
    let tables = Tables {
        nodes,
        children,
        numbers,
        names: &names[..],
        strings,
        text,
    };
    check_in_use(&tables, used)?;
    if !is_allowed(text, start, size) {
        return Err(NameRefusal::TableRefused(TableRefusal::BreaksRules));
    }
    let from = start as usize;
    let end = from + size as usize;
    if let Some(name) = number_of(names, text, used, &text[from..end]) {
        return Ok(NameAnswer::Existing { name });
    }
    put_name(names, used, start, size)
}
