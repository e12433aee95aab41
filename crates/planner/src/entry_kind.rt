// The kinds of a plan's entries.
pub const BIND: u32 = 1;

pub const IGNORE: u32 = 2;

pub const COMPARE_EXPRESSION: u32 = 3;

pub const COMPARE_LITERAL: u32 = 4;

pub const ARRAY: u32 = 5;

pub const OBJECT: u32 = 6;

pub const PAIR: u32 = 7;
