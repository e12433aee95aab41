// The cells of a line.
ghost use Rattle.std.specs.Prelude.{◌≡◌, ◌+◌, ◌≤◌, ◌<◌, length, get_or};
ghost use Rattle.columns.specs.Columns.{stored};
ghost use Rattle.page.specs.Page.{printable, cell, kind_name, kind_width};

use planner::entry_kind::{ARRAY, BIND, COMPARE_EXPRESSION, COMPARE_LITERAL, IGNORE, OBJECT, PAIR};

// The columns of a kind.
pub(crate) const KIND: usize = 10;

fn printed_byte(byte: u8) -> u8
    ensures { result ≡ printable byte }
{
    if byte < 32 {
        return b'?';
    }
    if 126 < byte {
        return b'?';
    }
    byte
}

// Byte i of a text's cell.
fn cell_byte(text: &[u8], width: usize, i: usize) -> u8
    requires { i < width }
    ensures { result ≡ get_or (cell width text.now) i 0 }
{
    if text.len() <= i {
        return b' ';
    }
    if text.len() <= width {
        return printed_byte(text[i]);
    }
    if i + 1 == width {
        return b'~';
    }
    printed_byte(text[i])
}

// A text in so many columns.
pub(crate) fn write_cell(out: &mut [u8], at: usize, width: usize, text: &[u8])
    requires { (at + width ≤ length out.old) × (0 < width) }
    ensures { out.new ≡ stored out.old at (cell width text.now) }
{
    for i in 0..width {
        out[at + i] = cell_byte(text, width, i);
    }
}

pub(crate) fn write_kind(out: &mut [u8], at: usize, kind: u32)
    requires { at + kind_width ≤ length out.old }
    ensures { out.new ≡ stored out.old at (cell kind_width (kind_name kind)) }
{
    match kind {
        BIND => write_cell(out, at, KIND, b"bind"),
        IGNORE => write_cell(out, at, KIND, b"ignore"),
        COMPARE_EXPRESSION => write_cell(out, at, KIND, b"expression"),
        COMPARE_LITERAL => write_cell(out, at, KIND, b"literal"),
        ARRAY => write_cell(out, at, KIND, b"array"),
        OBJECT => write_cell(out, at, KIND, b"object"),
        PAIR => write_cell(out, at, KIND, b"pair"),
        _ => write_cell(out, at, KIND, b""),
    }
}
