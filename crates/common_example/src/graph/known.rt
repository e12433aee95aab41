// What is known of a place: numbers, as they stand among the words of `heads`.
pub const NOTHING: u32 = 0;

pub const LITERAL: u32 = 1;

pub const ARRAY: u32 = 2;

pub const OBJECT: u32 = 3;
