// The rules' numbers, in the order in which they are asked: those of the C header, so no enum.
pub const MOST_NODES: u32 = 1;

pub const MOST_CHILDREN: u32 = 2;

pub const MOST_NUMBERS: u32 = 3;

pub const MOST_NAMES: u32 = 4;

pub const MOST_STRING_BYTES: u32 = 5;

pub const MOST_TEXT_BYTES: u32 = 6;

pub const NODE_WORDS: u32 = 7;

pub const NUMBER_WORDS: u32 = 8;

pub const NAME_WORDS: u32 = 9;

// Those up to here are of the tables as a whole.
pub const LAST_WHOLE: u32 = NAME_WORDS;

pub const NAME_RANGE: u32 = 10;

pub const NUMBER: u32 = 11;

pub const CHILD_NUMBER: u32 = 12;

pub const KIND: u32 = 13;

pub const SOURCE: u32 = 14;

pub const UNUSED_WORD: u32 = 15;

pub const RANGE: u32 = 16;

pub const NAME_TEXT: u32 = 17;

pub const CHILD_BELOW_PARENT: u32 = 18;

pub const CHILD_TWICE: u32 = 19;

pub const CHILD_SHARED: u32 = 20;

pub const MARK: u32 = 21;

pub const DEPTH: u32 = 22;

pub const EQUAL_NAMES: u32 = 23;

pub const LAST: u32 = EQUAL_NAMES;
