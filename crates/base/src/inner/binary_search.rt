// Binary search that ends at the first equal item, since comparing is what costs; the library's compares on to the end.
ghost use Rattle.std.specs.Prelude.{length};
ghost use Rattle.std.specs.Fn.{ComputesKey};
ghost use Rattle.std.specs.List.Sorted.{IsSearchInRange, IsBinarySearchResult};
ghost use Rattle.std.specs.declared.cmp.Ordering.{Ordering};

use std::cmp::Ordering;

// The place of an item that `f` calls equal, or the one before which it goes, in the order that `f` tells.
pub fn search_by<T, F: FnMut(&T) -> Ordering>(items: &[T], mut f: F) -> Result<usize, usize>
    requires { F.IsAlwaysCallable f }
    ensures bound { IsSearchInRange result (length items.now) }
    ensures position { (ord : T → Ordering) → ComputesKey F.FnMut ord f → IsBinarySearchResult ord items.now result }
{
    let mut low = 0;
    let mut high = items.len();
    while low < high {
        let middle = low + (high - low) / 2;
        match f(&items[middle]) {
            Ordering::Less => low = middle + 1,
            Ordering::Greater => high = middle,
            Ordering::Equal => return Ok(middle),
        }
    }
    Err(low)
}
