// Classes of places that must have one value: joined in rounds over all places until nothing more is forced.
ghost use Rattle.std.specs.Prelude.{◌≡◌};
ghost use Rattle.base.specs.Lists.{tabulate};
ghost use Rattle.common_example.specs.code.Classes.{ClassAsks, ClassIs, class_after, joined_in, PairAsks, PairJoined, LinksAsks, ItemsJoined, FieldsJoined, KindAsks, HeadsMet, MeetAsks, Met, RoundAsks, RoundDone, ClassesOk, class_count_in, CloseDone};

use crate::graph::{Graph, PLACES, known};

// The place that names a place's class.
pub(crate) fn class_of(classes: &[u32; PLACES], place: u32) -> u32
    requires { ClassAsks classes.now place }
    ensures { ClassIs classes.now place result }
{
    classes[place as usize]
}

// A class after class `from` went into class `to`. It is written in any case: a test before the writing takes longer.
fn class_after(class: u32, from: u32, to: u32) -> u32
    ensures { result ≡ class_after from to class }
{
    if class == from { to } else { class }
}

// Class `from` goes into class `to`.
fn join_classes(classes: &mut [u32; PLACES], from: u32, to: u32)
    requires { ClassesOk classes.old }
    ensures { classes.new ≡ tabulate (joined_in classes.old from to) 0 2052 }
{
    for i in 0..PLACES {
        classes[i] = class_after(classes[i], from, to);
    }
}

// The classes of two places become one; the one of which something is known names it.
pub(crate) fn join_pair(graph: &Graph, classes: &mut [u32; PLACES], a: u32, b: u32)
    requires { PairAsks graph.now.heads classes.old a b }
    ensures { PairJoined graph.now.heads classes.old a b classes.new }
{
    let first = class_of(classes, a);
    let second = class_of(classes, b);
    if first == second {
        return;
    }
    if graph.kind_at(first) == known::NOTHING {
        join_classes(classes, first, second);
        return;
    }
    join_classes(classes, second, first);
}

// The items of two arrays, from two links on.
fn join_items(graph: &Graph, classes: &mut [u32; PLACES], at: usize, from: usize, count: usize)
    requires { LinksAsks 4 graph.now.heads graph.now.links classes.old at from count }
    ensures { ItemsJoined graph.now.heads graph.now.links classes.old at from count classes.new }
{
    for i in 0..count {
        let first = at + i * 4;
        let second = from + i * 4;
        join_pair(graph, classes, graph.links[first], graph.links[second]);
    }
}

// The fields of two objects; false where a key differs.
fn join_fields(
    graph: &Graph,
    classes: &mut [u32; PLACES],
    at: usize,
    from: usize,
    count: usize,
) -> bool
    requires { LinksAsks 8 graph.now.heads graph.now.links classes.old at from count }
    ensures { FieldsJoined graph.now.heads graph.now.links classes.old at from count classes.new result }
{
    for i in 0..count {
        let first = at + i * 8;
        let second = from + i * 8;
        if graph.links[first + 2] != graph.links[second + 2] {
            return false;
        }
        join_pair(
            graph,
            classes,
            graph.links[first + 4],
            graph.links[second + 4],
        );
    }
    true
}

// Of a place and its class's name the same kind of thing is known; false where the literals, the lengths or the keys differ.
fn meet_heads(graph: &Graph, classes: &mut [u32; PLACES], class: u32, place: u32, kind: u32) -> bool
    requires { KindAsks kind graph.now.heads graph.now.links classes.old class place }
    ensures { HeadsMet graph.now.heads graph.now.links classes.old class place classes.new result }
{
    let first = graph.start_at(class) as usize;
    let second = graph.start_at(place) as usize;
    if kind == known::LITERAL {
        return first == second;
    }
    let count = graph.count_at(class) as usize;
    if graph.count_at(place) as usize != count {
        return false;
    }
    if kind == known::ARRAY {
        join_items(graph, classes, first, second, count);
        return true;
    }
    join_fields(graph, classes, first, second, count)
}

// A place's value has its class's head and its own; false where no value has both.
fn meet_class(graph: &Graph, classes: &mut [u32; PLACES], place: u32) -> bool
    requires { MeetAsks graph.now.heads graph.now.links classes.old place }
    ensures { Met graph.now.heads graph.now.links classes.old place classes.new result }
{
    let class = class_of(classes, place);
    let kind = graph.kind_at(class);
    if kind == known::NOTHING {
        return true;
    }
    let own = graph.kind_at(place);
    if own == known::NOTHING {
        return true;
    }
    if own != kind {
        return false;
    }
    meet_heads(graph, classes, class, place, kind)
}

// Each place in turn.
fn join_round(graph: &Graph, classes: &mut [u32; PLACES]) -> bool
    requires { RoundAsks graph.now.heads graph.now.links classes.old }
    ensures { RoundDone graph.now.heads graph.now.links classes.old classes.new result }
{
    for left in (0..2048).rev() {
        if !meet_class(graph, classes, left + 4) {
            return false;
        }
    }
    true
}

// How many classes there are.
fn count_classes(classes: &[u32; PLACES]) -> u32
    requires { ClassesOk classes.now }
    ensures { result ≡ class_count_in classes.now 2048 }
{
    let mut total: u32 = 0;
    for left in (0..2048).rev() {
        total += u32::from(class_of(classes, left + 4) == left + 4);
    }
    total
}

// Rounds until one joins nothing; false where no value has all heads of a class.
pub(crate) fn close_classes(graph: &Graph, classes: &mut [u32; PLACES]) -> bool
    requires { RoundAsks graph.now.heads graph.now.links classes.old }
    ensures { CloseDone graph.now.heads graph.now.links classes.old classes.new result }
{
    let mut before = count_classes(classes);
    for _round in 0u32..2049 {
        if !join_round(graph, classes) {
            return false;
        }
        let after = count_classes(classes);
        if after == before {
            return true;
        }
        before = after;
    }
    false
}
