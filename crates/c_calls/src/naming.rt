// Adding a name to the lent name table.
ghost use Rattle.std.specs.Prelude.{◌≡◌};
ghost use Rattle.table.specs.Tables.{tables};
ghost use Rattle.operation.specs.Rows.{row_line};
ghost use Rattle.name_table.specs.Answer.{name_line};
ghost use Rattle.c_calls.specs.NameCall.{NameCalledIn};

use name_table::{NameAnswer, NameRefusal, add_name};
use operation::inner::tell;
use operation::row::{Row, row_from};
use table::refusal_number;

fn name_row(answer: Result<NameAnswer, NameRefusal>) -> Row
    ensures { row_line result ≡ name_line answer }
{
    match answer {
        Ok(NameAnswer::Existing { name }) => row_from(0, name as u64, 0, 0),
        Ok(NameAnswer::Added { name }) => row_from(0, name as u64, 1, 0),
        Err(NameRefusal::TableRefused(r)) => row_from(refusal_number(r) as u64, 0, 0, 0),
        Err(NameRefusal::NoPlace) => row_from(33, 0, 0, 0),
    }
}

// Adds the name that stands at a range of the text. The first `used` places of the name table hold names, the others are free.
pub fn teluddru_add_name<'a>(
    nodes: &[u32],
    children: &[u32],
    numbers: &[u64],
    names: &mut [u32],
    strings: &'a [u8],
    text: &'a [u8],
    used: u32,
    start: u32,
    size: u32,
    answer: &mut [u32],
) -> u32
    ensures { let T = tables nodes.now children.now numbers.now names.old strings.now text.now in NameCalledIn names answer T used start size result }
{
    let added = add_name(
        nodes, children, numbers, names, strings, text, used, start, size,
    );
    tell(answer, name_row(added))
}
