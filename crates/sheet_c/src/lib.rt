// The sheet for a C host: what C calls of the library sheet, with the same clauses.
#![tactic(auto)]

ghost use Rattle.sheet.specs.Listing.{listing_of, Printed};

// Plans a sheet and lists the plan in `out`. The bytes written, or 0 if the listing doesn't fit.
#[unsafe(no_mangle)]
pub extern "C" fn plan_sheet(sheet: &[u8], out: &mut [u8]) -> usize
    ensures { Printed (listing_of sheet.now) out.old out.new result }
{
    sheet::plan_sheet(sheet, out)
}

// The same by the prefix of all other calls; the name without it ends with the next version.
#[unsafe(no_mangle)]
pub extern "C" fn teluddru_plan_sheet(sheet: &[u8], out: &mut [u8]) -> usize
    ensures { Printed (listing_of sheet.now) out.old out.new result }
{
    sheet::teluddru_plan_sheet(sheet, out)
}
