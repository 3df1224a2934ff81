//! Numbers in two and in four bytes, the highest byte first.
ghost use Rattle.std.specs.Prelude.{◌≡◌};
ghost use Rattle.std.specs.Int.{w16, w32, to_be_bytes};

/// The last two bytes of a number.
pub fn two_bytes(number: usize) -> [u8; 2]
    ensures { result ≡ to_be_bytes w16 number }
{
    let [.., high, low] = number.to_be_bytes();
    [high, low]
}

/// The last four bytes of a number.
pub fn four_bytes(number: usize) -> [u8; 4]
    ensures { result ≡ to_be_bytes w32 number }
{
    let [.., a, b, c, d] = number.to_be_bytes();
    [a, b, c, d]
}
