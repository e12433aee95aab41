// That the names' bytes tell names apart.
ghost use Rattle.std.specs.Prelude.{◌≡◌, [], ◌/◌, ◌<◌, ◌≤◌, length};
ghost use Rattle.table.specs.Tables.{tables, name_bytes};
ghost use Rattle.table.specs.code.NameOrder.{Ascending, FoundName};
ghost use Rattle.table.specs.Rules.{names_differ};

use crate::reading::name_bytes;
use base::inner::binary_search::search_by;
use base::insertion::insert_at;
use literal::order::{compare_bytes, ordering_of};

fn wide(name: u8) -> u32
    ensures { result ≡ name }
{
    name as u32
}

// The place of bytes among `count` names in order: that of a name with the same bytes, or the one before which they go.
fn find_name(
    names: &[u32],
    text: &[u8],
    order: &[u8; 128],
    count: usize,
    bytes: &[u8],
) -> Result<usize, usize>
    requires { Ascending (name_bytes names.now text.now) order.now count × (count < 128) }
    ensures { FoundName (name_bytes names.now text.now) bytes.now order.now count result }
{
    search_by(&order[..count], |&name| {
        ordering_of(compare_bytes(bytes, name_bytes(names, text, wide(name)))).reverse()
    })
}

pub(crate) fn names_differ(names: &[u32], text: &[u8]) -> bool
    requires { length names.now / 2 ≤ 128 }
    ensures { result ≡ names_differ (tables [] [] [] names.now [] text.now) }
{
    let mut order = [0u8; 128];
    let total = names.len() / 2;
    for i in 0..total {
        let bytes = name_bytes(names, text, (i + 1) as u32);
        let Err(place) = find_name(names, text, &order, i, bytes) else {
            return false;
        };
        insert_at(&mut order, place, i, (i + 1) as u8);
    }
    true
}
