// Classes of nodes that must have one number: a label for each node, and for each label the range that its class has left.
ghost use Rattle.std.specs.Prelude.{◌≡◌, ◌<◌, cond, eqb};
ghost use Rattle.base.specs.Lists.{all_from};
ghost use Rattle.tolerance.specs.code.Classes.{alike, equals, free};
ghost use Rattle.tolerance.specs.Tolerance.{num_order};
ghost use Rattle.tolerance.specs.code.Post.{number_of, RelabelAsks, Relabelled, OwnLabels, Apart, NodeNumber, Joined, ranges_by, classes_in};

use crate::number::{Number, Range};
use std::array;
use std::marker::Model;

// Read by node or label itself: place 0 is not used.
#[derive(Drop)]
pub(crate) struct Classes {
    labels: [u32; 513],
    ranges: [Range; 513],
}

impl Model for Classes {
    ghost use Rattle.tolerance.specs.code.Post.{Stored, ClassesOk};

    ghost Value = { Stored };

    ghost view = { λ c. (c.labels, c.ranges) };

    ghost invariant = { λ c. ClassesOk c.labels c.ranges };
}

fn own_labels() -> [u32; 513]
    ensures { OwnLabels result }
{
    array::from_fn(|n| n as u32)
}

// The nodes under one label get another.
fn relabel(labels: &mut [u32; 513], to: u32, from: u32)
    requires { RelabelAsks labels.old to from }
    ensures { Relabelled labels.old to from labels.new }
{
    for label in labels.iter_mut() {
        *label = new_label(*label, to, from);
    }
}

fn new_label(label: u32, to: u32, from: u32) -> u32
    ensures { result ≡ cond (eqb label from) to label }
{
    if label == from {
        return to;
    }
    label
}

impl Classes {
    // Each node is a class of its own.
    pub(crate) fn apart(ranges: &[Range; 513]) -> Classes
        ensures { Apart ranges.now result }
    {
        Classes {
            labels: own_labels(),
            ranges: *ranges,
        }
    }

    // Two nodes have the same number. Is one left for them?
    pub(crate) fn join(&mut self, node: u32, other: u32) -> bool
        requires { NodeNumber node × NodeNumber other }
        ensures { Joined (alike node other) (classes_in self.old) (classes_in self.new) result }
    {
        let to = self.labels[node as usize];
        let from = self.labels[other as usize];
        let left = self.ranges[to as usize].narrowed(self.ranges[from as usize]);
        self.ranges[to as usize] = left;
        relabel(&mut self.labels, to, from);
        left.is_open()
    }

    // A node has this number. Is it left for its class?
    pub(crate) fn fix(&mut self, node: u32, number: Number) -> bool
        requires { NodeNumber node }
        ensures { Joined (equals node (number_of number)) (classes_in self.old) (classes_in self.new) result }
    {
        let label = self.labels[node as usize] as usize;
        let alone = Range {
            low: number,
            high: number,
        };
        let left = self.ranges[label].narrowed(alone);
        self.ranges[label] = left;
        left.is_open()
    }

    // Is a node's range as it was, and the node alone in its class unless that is one number?
    fn is_free(&self, first: &[Range; 513], node: usize) -> bool
        requires { node < 513 }
        ensures { result ≡ free num_order (ranges_by first.now) (classes_in self.now) node }
    {
        let label = self.labels[node] as usize;
        if !self.ranges[label].same(first[node]) {
            return false;
        }
        if label == node {
            return true;
        }
        first[node].is_single()
    }

    // Do the classes ask for nothing that the ranges did not? Then every choice meets all equalities.
    pub(crate) fn all_free(&self, first: &[Range; 513]) -> bool
        ensures { result ≡ all_from (free num_order (ranges_by first.now) (classes_in self.now)) 1 512 }
    {
        for i in 0..512 {
            if !self.is_free(first, i + 1) {
                return false;
            }
        }
        true
    }
}
