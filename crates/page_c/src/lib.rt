// The pages for a C host: what C calls of the library page, with the same clauses.
#![tactic(auto)]

ghost use Rattle.sheet.specs.Sheet.{parse};
ghost use Rattle.page.specs.Answer.{pages_of_sheet, PagesToldIn};

// 0 or the refusal's number, and the answer's numbers in the lent words; the pages are the second.
#[unsafe(no_mangle)]
pub extern "C" fn teluddru_pages(sheet: &[u8], pages: &mut [u8], answer: &mut [u32]) -> u32
    ensures { PagesToldIn pages answer (pages_of_sheet (parse sheet.now)) result }
{
    page::teluddru_pages(sheet, pages, answer)
}
