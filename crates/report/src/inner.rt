// The names that a pattern meets. Each function that asks something asks for a checked table.
ghost use Rattle.table.specs.Contents.{contents};
ghost use Rattle.std.specs.Prelude.{◌≡◌, length};
ghost use Rattle.table.specs.Decode.{expr};
ghost use Rattle.base.specs.Lists.{tabulate};
ghost use Rattle.planner.specs.code.Post.{GoodRoot};
ghost use Rattle.report.specs.code.Post.{met_words, met_mark};

use planner::buffer::PATTERN_WORDS;
use planner::inner::destructuring::plan_pattern;
use scope::{Scope, ScopingMode};
use table::tables::Tables;

// 2 for a name that is met.
fn met_mark(met: &[u32; 128], i: usize) -> u32
    ensures { result ≡ met_mark met.now i }
{
    if 128 <= i {
        return 0;
    }
    if met[i] == 0 {
        return 0;
    }
    2
}

// 2 for each name with a word in `met`, else 0.
pub(crate) fn mark_met(met: &[u32; 128], list: &mut [u32])
    ensures { list.new ≡ tabulate (met_mark met.now) 0 (length list.old) }
{
    for i in 0..list.len() {
        list[i] = met_mark(met, i);
    }
}

// 2 for each name that a pattern meets, else 0: they are those that it would plan if none were known.
pub fn names_met(tables: &Tables<'_>, pattern: u32) -> [u32; 128]
    requires { GoodRoot (contents tables.now) pattern }
    ensures { result ≡ met_words (expr (contents tables.now) pattern) }
{
    let mut binders = [0u32; 128];
    let mut scratch = [0u32; PATTERN_WORDS];
    let none_known = Scope::new(0, false);
    plan_pattern(
        tables,
        none_known,
        ScopingMode::AllowShadowing,
        pattern,
        &mut binders,
        &mut scratch,
        0,
    );
    let mut met = [0u32; 128];
    mark_met(&binders, &mut met);
    met
}
