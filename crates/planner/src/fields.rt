// Field numbers in an order.
ghost use Rattle.std.specs.Prelude.{◌≡◌, ◌<◌, ◌^◌, get_or};

pub(crate) fn wide(x: u8) -> usize
    ensures { (result ≡ x) × (result < 2 ^ 8) }
{
    x as usize
}

// Byte i, or 0 behind the end.
fn byte_of(bytes: &[u8], i: usize) -> u8
    ensures { result ≡ get_or bytes.now i 0 }
{
    if i < bytes.len() {
        return bytes[i];
    }
    0
}

// A field number of an order; 0 past its end.
pub fn field_at(order: &[u8; 256], q: usize) -> usize
    ensures { result ≡ get_or order.now q 0 }
{
    wide(byte_of(order, q))
}
