// Pages of a plan for print (document 02, request 1).
#![tactic(auto)]

mod cells;
mod lines;

ghost use Rattle.std.specs.Prelude.{◌≡◌};
ghost use Rattle.operation.specs.Rows.{row_line};
ghost use Rattle.sheet.specs.Sheet.{parse};
ghost use Rattle.page.specs.Answer.{pages_of_sheet, LaidOutIn, page_line, PagesToldIn};

use lines::{LINE, PAGE_LINES, lay_out_plan};
use operation::inner::tell;
use operation::row::{Row, row_from};
use planner::buffer::ENTRY_WORDS;
use sheet::plan_into;

pub const PAGE_BYTES: usize = PAGE_LINES * LINE;

// Space for 1,536 entries, as for a listing.
const PLAN_WORDS: usize = ENTRY_WORDS * 1536;

// The sheet's refusal, with its four numbers, or 30.
#[derive(Clone, Copy)]
pub enum PageRefusal {
    SheetRefused(Row),
    BufferTooShort,
}

// Plans a sheet and lays the plan out on pages. How many pages; a refusal leaves the buffer as it was.
pub fn lay_out_pages(sheet: &[u8], pages: &mut [u8]) -> Result<usize, PageRefusal>
    ensures { LaidOutIn pages (pages_of_sheet (parse sheet.now)) result }
{
    let mut plan = [0u32; PLAN_WORDS];
    let row = plan_into(sheet, &mut plan);
    if row.number != 0 {
        return Err(PageRefusal::SheetRefused(row));
    }
    lay_out_plan(pages, sheet, &plan, row.fourth as usize)
}

fn page_row(answer: Result<usize, PageRefusal>) -> Row
    ensures { row_line result ≡ page_line answer }
{
    match answer {
        Ok(count) => row_from(0, count as u64, 0, 0),
        Err(PageRefusal::SheetRefused(row)) => row,
        Err(PageRefusal::BufferTooShort) => row_from(30, 0, 0, 0),
    }
}

// The same for a C host: 0 or the refusal's number, and the answer's numbers in the lent words; the pages are the second.
pub fn teluddru_pages(sheet: &[u8], pages: &mut [u8], answer: &mut [u32]) -> u32
    ensures { PagesToldIn pages answer (pages_of_sheet (parse sheet.now)) result }
{
    let laid = lay_out_pages(sheet, pages);
    tell(answer, page_row(laid))
}
