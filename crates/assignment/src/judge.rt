// What becomes of two sides.
ghost use Rattle.table.specs.Contents.{contents};
ghost use Rattle.std.specs.Prelude.{◌≡◌, ◌||◌};
ghost use Rattle.assignment.specs.declared.judge.Pairing.TheVariants.{Whole};
ghost use Rattle.assignment.specs.code.Judging.{objects_pairing, kinds_pairing, judgement_of, JudgesIn};
ghost use Rattle.assignment.specs.code.Previewing.{SidesAsksIn};

use crate::keys::literal_keys;
use crate::preview::preview_sides;
use table::node_kind;
use table::reading::kind_of;
use table::tables::Tables;

// How two sides may be taken: as they are, item by item, field by field, or not at all.
#[derive(Clone, Copy)]
pub(crate) enum Pairing {
    Whole,
    Items,
    ByKey,
    Opposed,
}

// What becomes of two sides: the left one binds to the right or the other way round, or they are compared, taken apart or refused.
#[derive(Clone, Copy)]
pub(crate) enum Judgement {
    Compare,
    BindLeft,
    BindRight,
    Items,
    ByKey,
    Refuse,
}

// A judgement, and how many entries the left side's plan has.
#[derive(Clone, Copy)]
pub(crate) struct JudgedSides {
    pub way: Judgement,
    pub count: usize,
}

// Two objects go by their keys if all of these are literals.
fn objects_pairing(nodes: &[u32], children: &[u32], left: u32, right: u32) -> Pairing
    ensures { result ≡ objects_pairing nodes.now children.now left right }
{
    if !literal_keys(nodes, children, left) {
        return Pairing::Whole;
    }
    if !literal_keys(nodes, children, right) {
        return Pairing::Whole;
    }
    Pairing::ByKey
}

fn pairing_of(nodes: &[u32], children: &[u32], left: u32, right: u32) -> Pairing
    ensures { result ≡ kinds_pairing nodes.now children.now left right }
{
    let left_kind = kind_of(nodes, left);
    let right_kind = kind_of(nodes, right);
    if left_kind == node_kind::ARRAY {
        if right_kind == node_kind::ARRAY {
            return Pairing::Items;
        }
        if right_kind == node_kind::OBJECT {
            return Pairing::Opposed;
        }
        return Pairing::Whole;
    }
    if left_kind == node_kind::OBJECT {
        if right_kind == node_kind::ARRAY {
            return Pairing::Opposed;
        }
        if right_kind == node_kind::OBJECT {
            return objects_pairing(nodes, children, left, right);
        }
        return Pairing::Whole;
    }
    Pairing::Whole
}

// Two sides as they are.
fn judge_whole(one: bool, other: bool) -> Judgement
    ensures { result ≡ judgement_of one other Whole }
{
    if one {
        if other {
            return Judgement::Refuse;
        }
        return Judgement::BindLeft;
    }
    if other {
        return Judgement::BindRight;
    }
    Judgement::Compare
}

fn either(one: bool, other: bool) -> bool
    ensures { result ≡ (one || other) }
{
    if one {
        return true;
    }
    other
}

fn judge_sides(
    nodes: &[u32],
    children: &[u32],
    left: u32,
    right: u32,
    one: bool,
    other: bool,
) -> Judgement
    ensures { result ≡ judgement_of one other (kinds_pairing nodes.now children.now left right) }
{
    if !either(one, other) {
        return Judgement::Compare;
    }
    match pairing_of(nodes, children, left, right) {
        Pairing::Whole => return judge_whole(one, other),
        Pairing::Items => return Judgement::Items,
        Pairing::ByKey => return Judgement::ByKey,
        Pairing::Opposed => return Judgement::Refuse,
    }
}

// What becomes of two nodes, by the names that are known. The left one's plan and binders stay.
pub(crate) fn judge(
    tables: &Tables<'_>,
    states: &[u8; 128],
    left: u32,
    right: u32,
    binders: &mut [u32; 128],
    scratch: &mut [u32],
) -> JudgedSides
    requires { SidesAsksIn scratch (contents tables.now) states.now left right }
    ensures { JudgesIn scratch binders (contents tables.now) states.now left right result.count result.way }
{
    let sides = preview_sides(tables, states, left, right, 1, binders, scratch);
    let way = judge_sides(
        tables.nodes,
        tables.children,
        left,
        right,
        sides.left,
        sides.right,
    );
    JudgedSides {
        way,
        count: sides.count,
    }
}
