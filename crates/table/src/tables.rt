// The lent tables of a rule; what they say is in specs/Tables.

#[derive(Clone, Copy)]
pub struct Tables<'a> {
    // Five words each: kind, start, end, first, count.
    pub nodes: &'a [u32],
    pub children: &'a [u32],
    // Two words each: 1 for below zero or 0, then the size.
    pub numbers: &'a [u64],
    // Two words each: start and length in the text.
    pub names: &'a [u32],
    pub strings: &'a [u8],
    pub text: &'a [u8],
}
