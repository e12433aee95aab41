// The plan store for a C host: what C calls of the library store_calls, with the same clauses.
#![tactic(auto)]

ghost use Rattle.store_calls.specs.StoreCalls.{SetUpCalledIn, KeepCalledIn, ReadCalledIn, EmptyCalledIn};

// Makes a store of the words, with a share for each pack.
#[unsafe(no_mangle)]
pub extern "C" fn teluddru_store_set_up(store: &mut [u32], shares: &[u32]) -> u32
    ensures { SetUpCalledIn store shares result }
{
    store_calls::teluddru_store_set_up(store, shares)
}

// Keeps a plan for a pack; the answer's second number is its place.
#[unsafe(no_mangle)]
pub extern "C" fn teluddru_store_keep(
    store: &mut [u32],
    pack: u32,
    plan: &[u32],
    entries: u32,
    answer: &mut [u32],
) -> u32
    ensures { KeepCalledIn store pack plan entries answer result }
{
    store_calls::teluddru_store_keep(store, pack, plan, entries, answer)
}

// Reads a pack's entry by its place; zeros if there is none.
#[unsafe(no_mangle)]
pub extern "C" fn teluddru_store_read(
    store: &[u32],
    pack: u32,
    place: u32,
    entry: &mut [u32],
) -> u32
    ensures { ReadCalledIn store pack place entry result }
{
    store_calls::teluddru_store_read(store, pack, place, entry)
}

// Ends all entries, and no share.
#[unsafe(no_mangle)]
pub extern "C" fn teluddru_store_empty(store: &mut [u32]) -> u32
    ensures { EmptyCalledIn store result }
{
    store_calls::teluddru_store_empty(store)
}
