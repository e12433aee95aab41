// Which rule of the tables is broken, and where.
ghost use Rattle.table.specs.Contents.{contents};
ghost use Rattle.std.specs.Prelude.{◌≡◌};
ghost use Rattle.operation.specs.Rows.{row_line};
ghost use Rattle.table_fault.specs.Fault.{fault_told, fault_line};
ghost use Rattle.c_calls.specs.Faults.{FaultCalledIn};

use operation::inner::tell;
use operation::row::{Row, row_from};
use table::refusal_number;
use table::tables::Tables;
use table_fault::{BrokenRule, table_fault};

fn fault_row(answer: Option<BrokenRule>) -> Row
    ensures { row_line result ≡ fault_line (fault_told answer) }
{
    match answer {
        None => row_from(0, 0, 0, 0),
        Some(broken) => {
            let number = refusal_number(broken.refused) as u64;
            row_from(number, broken.rule as u64, broken.place as u64, 0)
        }
    }
}

// The first rule that is broken and its first place, with the number of the table check.
pub fn teluddru_table_fault(tables: &Tables<'_>, marks: &[u8], answer: &mut [u32]) -> u32
    ensures { FaultCalledIn answer (contents tables.now) marks result }
{
    let found = table_fault(tables, marks);
    tell(answer, fault_row(found))
}
