// The limits of the tables.
ghost use Rattle.table.specs.Contents.{contents};
ghost use Rattle.std.specs.Prelude.{◌≡◌};
ghost use Rattle.table.specs.Rules.{within_limits};

use crate::tables::Tables;

// Is no table over its limit? Refusal 1, before all else of the check.
pub fn within_limits(tables: &Tables<'_>) -> bool
    ensures { result ≡ within_limits (contents tables.now) }
{
    if 512 < tables.nodes.len() / 5 {
        return false;
    }
    if 512 < tables.children.len() {
        return false;
    }
    if 256 < tables.numbers.len() / 2 {
        return false;
    }
    if 128 < tables.names.len() / 2 {
        return false;
    }
    if 8192 < tables.strings.len() {
        return false;
    }
    tables.text.len() <= 16384
}
