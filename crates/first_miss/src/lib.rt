// Where a run misses: the run of a pattern on a value again, with its first miss kept.
#![tactic(auto)]

ghost use Rattle.table.specs.Contents.{contents};
ghost use Rattle.first_miss.specs.Operations.{MissToldIn};

use run::RunRefusal;
use run::inner::names::start_list;
use run::inner::refusals::check_run;
use scope::{Scope, ScopingMode};
use table::tables::Tables;
use walking::walk;

mod keys;
mod walking;

#[derive(Clone, Copy)]
pub enum Why {
    NameDiffers,
    LiteralDiffers,
    NoArray,
    OtherLength,
    NoObject,
    KeyMissing,
    KeyTooMany,
}

// Why, the value's node and the pattern's.
#[derive(Clone, Copy)]
pub struct Miss {
    pub why: Why,
    pub value: u32,
    pub pattern: u32,
}

// Where the run of the pattern on the value misses first, if it does; refused as a run is, but never with 6. `values` has for each name number the node of its value, or 0.
pub fn first_miss(
    tables: &Tables<'_>,
    scope: Scope,
    scoping: ScopingMode,
    pattern: u32,
    value: u32,
    values: &[u32],
) -> Result<Option<Miss>, RunRefusal>
    ensures { MissToldIn values (contents tables.now) scope scoping pattern value result }
{
    check_run(tables, scope, scoping, pattern, value, values)?;
    let mut list = start_list(tables.names, scope, scoping, values);
    match walk(tables, &mut list, pattern, value) {
        Ok(()) => Ok(None),
        Err(miss) => Ok(Some(miss)),
    }
}
