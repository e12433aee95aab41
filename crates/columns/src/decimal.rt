// Decimal forms.
ghost use Rattle.std.specs.Prelude.{◌≡◌};
ghost use Rattle.columns.specs.Columns.{after_blanks};
ghost use Rattle.columns.specs.code.Decimals.{digits_number, read_decimal};

pub(crate) fn after_blanks(bytes: &[u8]) -> &[u8]
    ensures { result.now ≡ after_blanks bytes.now }
{
    for (i, byte) in bytes.iter().enumerate() {
        if *byte != 32 {
            return &bytes[i..];
        }
    }
    &bytes[bytes.len()..]
}

// What digits say. 1844674407370955161 is the last number of which ten times are below 2^64.
fn digits_number(bytes: &[u8]) -> Option<u64>
    ensures { result ≡ digits_number 0 bytes.now }
{
    let mut n: u64 = 0;
    for byte in bytes {
        if *byte < 48 {
            return None;
        }
        if 57 < *byte {
            return None;
        }
        if 1844674407370955161 < n {
            return None;
        }
        let digit = (*byte - 48) as u64;
        if 18446744073709551615 - n * 10 < digit {
            return None;
        }
        n = n * 10 + digit;
    }
    Some(n)
}

// A decimal form without leading zeros, of a number up to 2^64 - 1.
pub(crate) fn read_decimal(bytes: &[u8]) -> Option<u64>
    ensures { result ≡ read_decimal bytes.now }
{
    if bytes.len() == 0 {
        return None;
    }
    if bytes.len() == 1 {
        return digits_number(bytes);
    }
    if bytes[0] == 48 {
        return None;
    }
    digits_number(bytes)
}
