// The kinds of nodes.
pub const STRING: u32 = 1;

pub const RAW_STRING: u32 = 2;

pub const NUMBER: u32 = 3;

pub const BOOL: u32 = 4;

pub const NULL: u32 = 5;

pub const NAME: u32 = 6;

pub const ARRAY: u32 = 7;

pub const SET: u32 = 8;

pub const OBJECT: u32 = 9;

pub const OTHER: u32 = 10;

// Nodes of this kind or a lower one are literals.
pub const LAST_LITERAL: u32 = NULL;
