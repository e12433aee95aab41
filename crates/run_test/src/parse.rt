// The expressions of a case's line as a node table. Each token has its size by its first byte: a
// string or raw string of one byte, a number of one digit, a name of one byte, null, false, true,
// `?` another expression, `<` and `>` a set. `.` is node 0 and `!` is NO_NODE.
ghost use Rattle.std.specs.Prelude.{◌<◌, ◌≤◌};

pub(crate) const NO_NODE: u32 = 777;

// The string store, in which a string has the place of its letter. A raw string stands in the line.
pub(crate) const STRINGS: [u8; 26] = *b"abcdefghijklmnopqrstuvwxyz";

// Nodes, child entries, items on the stack and open brackets past these are passed over, and so
// are numbers past half as many.
const MOST: usize = 64;

// The nodes of a line, and on the stack those that have no parent yet. `opened` has for each open
// bracket the place on the stack of its first item. Arrays with their lengths: no heap.
#[derive(Clone, Copy)]
pub(crate) struct Parsed {
    nodes: [[u32; 5]; MOST],
    node_count: usize,
    children: [u32; MOST],
    child_count: usize,
    numbers: [[u64; 2]; MOST],
    number_count: usize,
    stack: [u32; MOST],
    top: usize,
    // The last node that stood first on the stack, and second: the pattern and the value.
    pub(crate) pattern: u32,
    pub(crate) value: u32,
    opened: [usize; MOST],
    depth: usize,
}

pub(crate) fn byte_at(line: &[u8], i: usize) -> u8 {
    line.get(i).copied().unwrap_or(0)
}

fn letter_place(byte: u8) -> u32 {
    ((byte % 32 + 31) % 32) as u32
}

// The number of the name of one byte, or 0. The names stand in the line from column 3 on.
fn name_number(line: &[u8], byte: u8) -> u32 {
    for number in 1..5u8 {
        if byte_at(line, number as usize + 2) == byte {
            return number as u32;
        }
    }
    0
}

fn token_size(byte: u8) -> usize
    ensures { (1 ≤ result) × (result ≤ 5) }
{
    match byte {
        b'f' => 5,
        b'n' | b't' => 4,
        b'"' | b'`' => 3,
        b'-' => 2,
        _ => 1,
    }
}

// Two child entries make a field.
fn items_in(kind: u32, entries: u32) -> u32 {
    if kind == 9 {
        return entries / 2;
    }
    entries
}

// The first of a list, or all where there are fewer.
pub(crate) fn first<T>(list: &[T], count: usize) -> &[T] {
    list.get(..count).unwrap_or(list)
}

impl Parsed {
    fn empty() -> Parsed {
        Parsed {
            nodes: [[0; 5]; MOST],
            node_count: 0,
            children: [0; MOST],
            child_count: 0,
            numbers: [[0; 2]; MOST],
            number_count: 0,
            stack: [0; MOST],
            top: 0,
            pattern: 0,
            value: 0,
            opened: [0; MOST],
            depth: 0,
        }
    }

    pub(crate) fn nodes(&self) -> &[u32] {
        first(&self.nodes, self.node_count).as_flattened()
    }

    pub(crate) fn children(&self) -> &[u32] {
        first(&self.children, self.child_count)
    }

    pub(crate) fn numbers(&self) -> &[u64] {
        first(&self.numbers, self.number_count).as_flattened()
    }

    pub(crate) fn stack(&self) -> &[u32] {
        first(&self.stack, self.top)
    }

    fn push(&mut self, node: u32) {
        let place = self.top;
        if place == 0 {
            self.pattern = node;
        }
        if place == 1 {
            self.value = node;
        }
        if place < MOST {
            self.stack[place] = node;
            self.top = place + 1;
        }
    }

    fn push_node(&mut self, node: [u32; 5]) {
        let place = self.node_count;
        if place < MOST {
            self.nodes[place] = node;
            self.node_count = place + 1;
            self.push((place + 1) as u32);
        }
    }

    fn push_number(&mut self, start: u32, end: u32, sign: u64, digit: u8) {
        let at = self.number_count;
        if at < MOST / 2 {
            self.numbers[at] = [sign, (digit % 16) as u64];
            self.number_count = at + 1;
            self.push_node([3, start, end, at as u32, 0]);
        }
    }

    fn open(&mut self) {
        let depth = self.depth;
        if depth < MOST {
            self.opened[depth] = self.top;
            self.depth = depth + 1;
        }
    }

    // The nodes on the stack from a place on become child entries.
    fn add_children(&mut self, from: usize) {
        for place in from..self.top.min(MOST) {
            let at = self.child_count;
            if at < MOST {
                self.children[at] = self.stack[place];
                self.child_count = at + 1;
            }
        }
        self.top = from;
    }

    fn close(&mut self, kind: u32, start: u32) {
        let Some(depth) = self.depth.checked_sub(1) else {
            return;
        };
        let Some(&from) = self.opened.get(depth) else {
            return;
        };
        self.depth = depth;
        let first = (self.child_count % 65) as u32;
        let count = (self.top.saturating_sub(from) % 65) as u32;
        self.add_children(from);
        self.push_node([kind, start, start, first, items_in(kind, count)]);
    }

    fn token(&mut self, line: &[u8], i: usize)
        requires { i < 256 }
    {
        let byte = byte_at(line, i);
        let start = i as u32;
        match byte {
            b' ' | b',' | b':' | b'|' => (),
            b'[' | b'<' | b'{' => self.open(),
            b']' => self.close(7, start),
            b'>' => self.close(8, start),
            b'}' => self.close(9, start),
            b'.' => self.push(0),
            b'!' => self.push(NO_NODE),
            b'n' => self.push_node([5, start, start + 4, 0, 0]),
            b'f' => self.push_node([4, start, start + 5, 0, 0]),
            b't' => self.push_node([4, start, start + 4, 1, 0]),
            b'?' => self.push_node([10, start, start + 1, 0, 0]),
            b'"' => self.push_node([1, start, start + 3, letter_place(byte_at(line, i + 1)), 1]),
            b'`' => self.push_node([2, start, start + 3, start + 1, 1]),
            b'-' => self.push_number(start, start + 2, 1, byte_at(line, i + 1)),
            b'0'..=b'9' => self.push_number(start, start + 1, 0, byte),
            _ => self.push_node([6, start, start + 1, name_number(line, byte), 0]),
        }
    }
}

// The expressions of a line from a column on.
pub(crate) fn parse(line: &[u8], from: usize) -> Parsed {
    let mut parsed = Parsed::empty();
    let end = line.len().min(256);
    let mut i = from;
    // A token's size is known only at the token: no `for` steps so.
    while i < end {
        parsed.token(line, i);
        i += token_size(line[i]);
    }
    parsed
}
