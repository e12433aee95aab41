// The validation of the names of a checked table's pattern (utils.rs).
ghost use Rattle.table.specs.Contents.{contents};
ghost use Rattle.std.specs.Prelude.{◌≡◌};
ghost use Rattle.planner.specs.code.Post.{GoodRoot};
ghost use Rattle.planner.specs.code.Validation.{first_defined};

use crate::context::name_flags;
use crate::inner::names::first_name;
use scope::{Scope, ScopingMode};
use table::tables::Tables;

// The first name of a pattern that is defined already, or 0. `binders` are those of its plan.
pub fn validate_pattern_bindings(
    tables: &Tables<'_>,
    scope: Scope,
    binders: &[u32; 128],
    root: u32,
) -> u32
    requires { GoodRoot (contents tables.now) root }
    ensures { result ≡ first_defined (contents tables.now) scope binders.now root }
{
    let flags = name_flags(
        tables.names,
        tables.text,
        scope,
        ScopingMode::RespectParent,
        true,
        binders,
    );
    first_name(tables, &flags, true, false, root)
}
