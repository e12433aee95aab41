// The graph of two patterns of a checked table, as arrays over places: a place for each node and each name on either side.
ghost use Rattle.std.specs.Prelude.{◌<◌, ◌≡◌};
ghost use Rattle.common_example.specs.code.Graph.{kind_at, start_at, count_at, step_of, ShapeAsks, PartsAre};

pub mod key_order;
pub mod known;
pub mod likes;
pub mod node_places;
pub mod words;

// Nodes and names up to 512, each on two sides.
pub(crate) const PLACES: usize = 2052;

pub(crate) const HEAD_WORDS: usize = 6156;

pub(crate) const LINK_WORDS: usize = 2048;

// The parts of an array, or of an object, of which each has a key.
#[derive(Clone, Copy)]
pub(crate) enum Shape {
    Items,
    Fields,
}

impl Shape {
    // The links of items stand 4 apart, those of fields 8.
    pub(crate) fn step(self) -> usize
        ensures { result ≡ step_of self }
    {
        match self {
            Shape::Items => 4,
            Shape::Fields => 8,
        }
    }
}

// From the link of the first item, or of the first field's value; a key's stands 2 before its value's.
#[derive(Clone, Copy)]
pub(crate) struct Parts {
    pub shape: Shape,
    pub link: usize,
    pub count: u32,
}

#[derive(Drop)]
pub(crate) struct Graph {
    // Three words a place, its head.
    pub heads: [u32; HEAD_WORDS],
    // Four words a child entry: its place on each side, and twice the node of its literal.
    pub links: [u32; LINK_WORDS],
}

impl Graph {
    // What is known of a place, of `known`.
    pub(crate) fn kind_at(&self, place: u32) -> u32
        requires { place < 2052 }
        ensures { result ≡ kind_at self.now.heads place }
    {
        self.heads[place as usize * 3]
    }

    // The literal's node, or the first link.
    pub(crate) fn start_at(&self, place: u32) -> u32
        requires { place < 2052 }
        ensures { result ≡ start_at self.now.heads place }
    {
        self.heads[place as usize * 3 + 1]
    }

    // How many links.
    pub(crate) fn count_at(&self, place: u32) -> u32
        requires { place < 2052 }
        ensures { result ≡ count_at self.now.heads place }
    {
        self.heads[place as usize * 3 + 2]
    }

    // None where no array and no object is known.
    pub(crate) fn parts_at(&self, place: u32) -> Option<Parts>
        requires { ShapeAsks self.now.heads self.now.links place }
        ensures { PartsAre self.now.heads place result }
    {
        let kind = self.kind_at(place);
        if kind <= known::LITERAL {
            return None;
        }
        let start = self.start_at(place) as usize;
        let count = self.count_at(place);
        if kind == known::ARRAY {
            return Some(Parts {
                shape: Shape::Items,
                link: start,
                count,
            });
        }
        Some(Parts {
            shape: Shape::Fields,
            link: start + 4,
            count,
        })
    }
}

// A graph and its classes: at each place's number the place that names its class, whose places have one value.
#[derive(Drop)]
pub(crate) struct Joined {
    pub graph: Graph,
    pub classes: [u32; PLACES],
}
