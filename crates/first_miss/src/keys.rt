// The key sets of a pattern's object and a value's: a key that is missing, or one too many.
ghost use Rattle.table.specs.Contents.{contents};
ghost use Rattle.std.specs.Prelude.{◌≡◌};
ghost use Rattle.table.specs.Decode.{literal_at};
ghost use Rattle.value.specs.code.Post.{KeySetsAsks};
ghost use Rattle.first_miss.specs.Miss.{other_key};
ghost use Rattle.first_miss.specs.code.Post.{comes_before, keys_at, key_in, LesserAsks, LesserTold, MissingTold};

use literal::Comparison;
use table::reading::{child_at, compare_literals, count_of, first_of};
use table::tables::Tables;
use value::inner::fields::value_under;

// Is a key before another, in key order?
fn comes_before(tables: &Tables<'_>, a: u32, b: u32) -> bool
    ensures { let T = contents tables.now in result ≡ comes_before (literal_at T a) (literal_at T b) }
{
    let way = compare_literals(
        tables.nodes,
        tables.numbers,
        tables.strings,
        tables.text,
        a,
        b,
    );
    matches!(way, Comparison::Less)
}

// The least missing key so far, once a key is looked for in an object, at first at `position`.
fn lesser_missing(
    tables: &Tables<'_>,
    object: u32,
    position: usize,
    key: u32,
    least: Option<u32>,
) -> Option<u32>
    requires { LesserAsks (contents tables.now) object key least }
    ensures { LesserTold (contents tables.now) object key least result }
{
    if value_under(tables, object, position, key).is_some() {
        return least;
    }
    let Some(other) = least else {
        return Some(key);
    };
    if comes_before(tables, key, other) {
        return Some(key);
    }
    least
}

// The least key of one object that another lacks.
pub(crate) fn missing_key(tables: &Tables<'_>, a: u32, b: u32) -> Option<u32>
    requires { KeySetsAsks (contents tables.now) a b }
    ensures { MissingTold (contents tables.now) a b result }
{
    let first = first_of(tables.nodes, a) as usize;
    let count = count_of(tables.nodes, a) as usize;
    let mut least = None;
    for left in (0..count).rev() {
        let key = child_at(tables.children, first + left * 2);
        least = lesser_missing(tables, b, left, key, least);
    }
    least
}

// The first key, as written, of one object that another lacks.
pub(crate) fn other_key(tables: &Tables<'_>, a: u32, b: u32) -> Option<u32>
    requires { KeySetsAsks (contents tables.now) a b }
    ensures { let T = contents tables.now in result ≡ key_in T a (other_key (keys_at T b) 0 (keys_at T a)) }
{
    let first = first_of(tables.nodes, a) as usize;
    let count = count_of(tables.nodes, a) as usize;
    for i in 0..count {
        let key = child_at(tables.children, first + i * 2);
        if value_under(tables, b, i, key).is_none() {
            return Some(key);
        }
    }
    None
}
