// The node table of a rule: its check and its reading.
#![tactic(auto)]

ghost use Rattle.table.specs.Contents.{contents};
ghost use Rattle.std.specs.Prelude.{◌≡◌};
ghost use Rattle.table.specs.Check.{TableAnswered, table_refused};

use crate::tables::Tables;
use inner::depth::depths_ok;
use limits::within_limits;
use literal::LiteralRef;
use names::names_differ;
use rules::follows_rules;
use scope::Scope;

mod distinct;
pub mod inner;
pub mod limits;
mod names;
pub mod node_kind;
mod nodes;
pub mod reading;
pub mod rules;
pub mod tables;

#[derive(Clone, Copy)]
pub enum TableRefusal {
    OverLimit,
    BreaksRules,
    TooDeep,
    EqualNames,
}

// The number of a refusal.
pub fn refusal_number(refused: TableRefusal) -> u32
    ensures { result ≡ (table_refused refused).number }
{
    match refused {
        TableRefusal::OverLimit => 1,
        TableRefusal::BreaksRules => 2,
        TableRefusal::TooDeep => 3,
        TableRefusal::EqualNames => 4,
    }
}

// A key that is a literal, or one that is computed.
#[derive(Clone, Copy)]
pub enum Key {
    Literal(LiteralRef),
    Computed,
}

// What a name is by its bytes: `_`; `input` or `data`; any other.
#[derive(Clone, Copy)]
pub enum NameClass {
    Underscore,
    InputOrData,
    Ordinary,
}

// The first that holds: over a limit, breaks a rule, too deep, two names of equal bytes.
pub fn check(tables: &Tables<'_>, scope: Scope) -> Result<(), TableRefusal>
    ensures { TableAnswered (contents tables.now) scope result }
{
    if !within_limits(tables) {
        return Err(TableRefusal::OverLimit);
    }
    if !follows_rules(tables, scope) {
        return Err(TableRefusal::BreaksRules);
    }
    if !depths_ok(tables.nodes, tables.children, tables.nodes.len() / 5) {
        return Err(TableRefusal::TooDeep);
    }
    if !names_differ(tables.names, tables.text) {
        return Err(TableRefusal::EqualNames);
    }
    Ok(())
}
