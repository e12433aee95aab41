// Sheets: an operation and its tables as decimal columns, planned and listed (document 01, "Sheet").
#![tactic(auto)]

mod header;
mod lines;
mod listing;
pub mod source;
mod space;
mod tables;

ghost use Rattle.sheet.specs.Sheet.{parse};
ghost use Rattle.sheet.specs.Outcome.{outcome_of_sheet, PlannedInto};
ghost use Rattle.sheet.specs.Listing.{listing_of, Printed};

use header::read_header;
use listing::refuse;
use operation::row::Row;
use space::{list_headed, plan_headed, refuse_plan};

// Plans a sheet into `plan`. The answer's four numbers.
pub fn plan_into(sheet: &[u8], plan: &mut [u32]) -> Row
    ensures { PlannedInto (outcome_of_sheet (parse sheet.now)) plan.old plan.new result }
{
    match read_header(sheet) {
        Ok(header) => plan_headed(sheet, header, plan),
        Err(refusal) => refuse_plan(refusal, plan),
    }
}

// Plans a sheet and lists the plan in `out`. The bytes written, or 0 if the listing doesn't fit.
pub fn plan_sheet(sheet: &[u8], out: &mut [u8]) -> usize
    ensures { Printed (listing_of sheet.now) out.old out.new result }
{
    match read_header(sheet) {
        Ok(header) => list_headed(sheet, header, out),
        Err(refusal) => refuse(refusal, out),
    }
}

// The same by the prefix of all other calls; the name without it ends with the next version.
pub fn teluddru_plan_sheet(sheet: &[u8], out: &mut [u8]) -> usize
    ensures { Printed (listing_of sheet.now) out.old out.new result }
{
    plan_sheet(sheet, out)
}
