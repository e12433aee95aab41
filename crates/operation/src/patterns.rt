// The patterns and the roots of an operation.
ghost use Rattle.std.specs.Prelude.{◌≡◌, [], ◌∷◌};
ghost use Rattle.scope.specs.declared.ScopingMode.TheVariants.{RespectParent};
ghost use Rattle.table.specs.Tables.{tables};
ghost use Rattle.table.specs.Check.{all_nodes};
ghost use Rattle.some_in.specs.SomeIn.{roots};
ghost use Rattle.operation.specs.Version.{pattern_root, some_in_patterns, patterns_of, roots_of};
ghost use Rattle.operation.specs.code.Reserved.{listed};

use crate::Operation;
use scope::ScopingMode;
use table::reading::is_node;

// Patterns of one scoping: the first, and the second if there are two.
#[derive(Clone, Copy)]
pub(crate) struct Patterns {
    pub scoping: ScopingMode,
    pub first: u32,
    pub second: u32,
    pub two: bool,
}

fn one_pattern(scoping: ScopingMode, root: u32) -> Patterns
    ensures { listed result ≡ pattern_root scoping root ∷ [] }
{
    Patterns {
        scoping,
        first: root,
        second: 0,
        two: false,
    }
}

fn two_patterns(first: u32, second: u32) -> Patterns
    ensures { listed result ≡ pattern_root RespectParent first ∷ (pattern_root RespectParent second ∷ []) }
{
    Patterns {
        scoping: ScopingMode::RespectParent,
        first,
        second,
        two: true,
    }
}

fn some_in_patterns(value: u32, key: u32) -> Patterns
    ensures { listed result ≡ some_in_patterns value key }
{
    if key == 0 {
        return one_pattern(ScopingMode::RespectParent, value);
    }
    two_patterns(key, value)
}

pub(crate) fn patterns_of(operation: Operation) -> Patterns
    ensures { listed result ≡ patterns_of operation }
{
    match operation {
        Operation::Pattern { scoping, root } => one_pattern(scoping, root),
        Operation::ColonEquals {
            left,
            right,
            reading,
        } => one_pattern(ScopingMode::AllowShadowing, left),
        Operation::Equals {
            left,
            right,
            reading,
        } => two_patterns(left, right),
        Operation::SomeIn {
            value,
            collection,
            key,
            reading,
        } => some_in_patterns(value, key),
        Operation::Index { root } => one_pattern(ScopingMode::RespectParent, root),
        Operation::Parameter { scoping, root } => one_pattern(scoping, root),
    }
}

fn are_nodes(nodes: &[u32], first: u32, second: u32) -> bool
    ensures { result ≡ all_nodes (tables nodes.now [] [] [] [] []) (first ∷ (second ∷ [])) }
{
    if is_node(nodes, first) {
        return is_node(nodes, second);
    }
    false
}

// Key root 0 says that there is no key.
fn are_some_in_nodes(nodes: &[u32], value: u32, collection: u32, key: u32) -> bool
    ensures { result ≡ all_nodes (tables nodes.now [] [] [] [] []) (roots value collection key) }
{
    if key == 0 {
        return are_nodes(nodes, value, collection);
    }
    if is_node(nodes, key) {
        return are_nodes(nodes, value, collection);
    }
    false
}

pub(crate) fn roots_are_nodes(nodes: &[u32], operation: Operation) -> bool
    ensures { result ≡ all_nodes (tables nodes.now [] [] [] [] []) (roots_of operation) }
{
    match operation {
        Operation::Pattern { scoping, root } => is_node(nodes, root),
        Operation::ColonEquals {
            left,
            right,
            reading,
        } => are_nodes(nodes, left, right),
        Operation::Equals {
            left,
            right,
            reading,
        } => are_nodes(nodes, left, right),
        Operation::SomeIn {
            value,
            collection,
            key,
            reading,
        } => are_some_in_nodes(nodes, value, collection, key),
        Operation::Index { root } => is_node(nodes, root),
        Operation::Parameter { scoping, root } => is_node(nodes, root),
    }
}
