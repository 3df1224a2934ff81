//! Numbers of 1, 2 or 4 bytes, the lowest first; one of 4 has a sign.
ghost use Rattle.std.specs.Prelude.{◌≡◌, length};
ghost use Rattle.region_bytes.specs.Extents.{IsWidth, number_read};

/// The number that the bytes are.
pub fn read(bytes: &[u8]) -> i32
    requires { IsWidth (length bytes.now) }
    ensures { result ≡ number_read bytes.now }
{
    match bytes {
        [a] => i32::from(*a),
        [a, b] => i32::from(u16::from_le_bytes([*a, *b])),
        [a, b, c, d] => i32::from_le_bytes([*a, *b, *c, *d]),
        // No number has another width.
        _ => unreachable!(),
    }
}
