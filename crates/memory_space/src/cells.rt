//! Bytes in a row, what is read there and what is written.
ghost use Rattle.std.specs.Prelude.{◌≡◌, ◌≤◌, ◌+◌, length, get_or};
ghost use Rattle.jx_base.specs.Basics.{low_byte};
ghost use Rattle.region_bytes.specs.Extents.{IsWidth, number_read};
ghost use Rattle.table_extents.specs.ExtentChanges.{written};

/// The number that the bytes are, the lowest first; one of four has a sign.
pub fn read(bytes: &[u8]) -> i32
    requires { IsWidth (length bytes.now) }
    ensures { result ≡ number_read bytes.now }
{
    match bytes {
        [a] => i32::from(*a),
        [a, b] => i32::from(u16::from_le_bytes([*a, *b])),
        [a, b, c, d] => i32::from_le_bytes([*a, *b, *c, *d]),
        // No number has another width.
        _ => unreachable!(),
    }
}

/// Puts the low bytes of the value there, the lowest first.
pub fn put_number(bytes: &mut [u8], at: usize, width: usize, value: i32)
    requires within { at + width ≤ length bytes.old }
    requires width { IsWidth width }
    ensures { bytes.new ≡ written 0 at width (low_byte value) bytes.old }
{
    let number = value.cast_unsigned().to_le_bytes();
    bytes[at..at + width].copy_from_slice(&number[..width]);
}

/// Puts the byte at so many places.
pub fn put_same(bytes: &mut [u8], at: usize, count: usize, byte: u8)
    requires { at + count ≤ length bytes.old }
    ensures { bytes.new ≡ written 0 at count (λ _. byte) bytes.old }
{
    bytes[at..at + count].fill(byte);
}

/// Moves bytes within a row, as if through a second place.
pub fn move_within(bytes: &mut [u8], at: usize, to: usize, count: usize)
    requires from { at + count ≤ length bytes.old }
    requires to { to + count ≤ length bytes.old }
    ensures { bytes.new ≡ written 0 to count (λ k. get_or bytes.old (at + k) 0) bytes.old }
{
    bytes.copy_within(at..at + count, to);
}
