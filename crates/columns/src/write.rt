// The writing of a column.
ghost use Rattle.std.specs.Prelude.{◌≡◌, ◌+◌, ◌≤◌, length};
ghost use Rattle.columns.specs.Columns.{column_stored};
ghost use Rattle.columns.specs.code.Written.{column_byte, write_rest};

// A digit of what is left of a number, or a blank once nothing is left.
fn column_byte(rest: u64) -> u8
    ensures { result ≡ column_byte rest }
{
    if rest == 0 {
        return 32;
    }
    48 + (rest % 10) as u8
}

// What is left of a number above its last digit.
fn write_rest(out: &mut [u8], at: usize, above: u64)
    requires { at + 5 ≤ length out.old }
    ensures { out.new ≡ write_rest out.old at 5 above }
{
    let mut rest = above;
    for left in (0..5).rev() {
        out[at + left] = column_byte(rest);
        rest /= 10;
    }
}

// Nothing is left of a number of one digit.
fn write_blanks(out: &mut [u8], at: usize)
    requires { at + 5 ≤ length out.old }
    ensures { out.new ≡ write_rest out.old at 5 0 }
{
    out[at..at + 5].fill(b' ');
}

// The number as a column of six at a place, if there is space for it.
pub fn write_column(out: &mut [u8], at: usize, n: u64)
    ensures { out.new ≡ column_stored out.old at n }
{
    if out.len() < 6 {
        return;
    }
    if out.len() - 6 < at {
        return;
    }
    if n < 10 {
        out[at + 5] = 48 + n as u8;
        write_blanks(out, at);
        return;
    }
    out[at + 5] = 48 + (n % 10) as u8;
    write_rest(out, at, n / 10);
}
