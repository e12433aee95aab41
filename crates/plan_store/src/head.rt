// The head of a store: how many packs there are, and of each its share and how many entries it keeps.
ghost use Rattle.std.specs.Prelude.{◌≡◌, true};
ghost use Rattle.plan_store.specs.Store.{shares_ok, fresh, emptied};
ghost use Rattle.plan_store.specs.Words.{with_store, store_of, is_store};
ghost use Rattle.plan_store.specs.code.Head.{room_in, taken, Among, entries_end, HeadAsks};

use crate::{CAPACITY, MOST_PACKS, STORE_WORDS};
use planner::buffer::ENTRY_WORDS;

// A word as a number of words or entries.
pub(crate) fn wide(x: u32) -> usize
    ensures { result ≡ x }
{
    x as usize
}

// What a pack takes of a store: the larger of its share and its entries.
fn taken_by(share: u32, used: u32) -> u32
    ensures { result ≡ taken share used }
{
    if share < used {
        return used;
    }
    share
}

// How much of the common part is free, or none for words that are no store that the calls can give: one pass over the packs.
pub(crate) fn room_in(store: &[u32]) -> Option<u32>
    ensures { result ≡ room_in store.now }
{
    if store.len() != STORE_WORDS {
        return None;
    }
    let packs = wide(store[0]);
    if MOST_PACKS < packs {
        return None;
    }
    let mut left = CAPACITY;
    for i in 0..packs {
        let takes = taken_by(store[1 + i * 2], store[2 + i * 2]);
        left = left.checked_sub(takes)?;
    }
    Some(left)
}

pub(crate) fn is_store(store: &[u32]) -> bool
    ensures { result ≡ is_store store.now }
{
    room_in(store).is_some()
}

pub(crate) fn shares_ok(shares: &[u32]) -> bool
    ensures { result ≡ shares_ok shares.now }
{
    if MOST_PACKS < shares.len() {
        return false;
    }
    let mut left = CAPACITY;
    for share in shares {
        if left < *share {
            return false;
        }
        left -= *share;
    }
    true
}

// The place after the entries of the first packs.
pub(crate) fn entries_end(store: &[u32], packs: usize) -> usize
    requires { Among store.now packs }
    ensures { result ≡ entries_end store.now packs }
{
    let mut end = 1 + wide(store[0]) * 2;
    for i in 0..packs {
        end += wide(store[2 + i * 2]) * ENTRY_WORDS;
    }
    end
}

// The head of a new store: each pack's share, and no entries.
pub(crate) fn write_head(store: &mut [u32], shares: &[u32])
    requires { HeadAsks store.old shares.now }
    ensures { store.new ≡ with_store store.old (fresh shares.now) }
{
    for (i, share) in shares.iter().enumerate() {
        store[1 + i * 2] = *share;
        store[2 + i * 2] = 0;
    }
    store[0] = shares.len() as u32;
}

// No entries in any pack.
pub(crate) fn clear_used(store: &mut [u32])
    requires { is_store store.old ≡ true }
    ensures { store.new ≡ with_store store.old (emptied (store_of store.old)) }
{
    let packs = wide(store[0]);
    for pack in 0..packs {
        store[2 + pack * 2] = 0;
    }
}
