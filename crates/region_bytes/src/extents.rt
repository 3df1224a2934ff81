//! One extent of many.
ghost use Rattle.std.specs.Prelude.{◌≡◌, ◌≤◌, ◌-◌, Some, None, IsSome, length, slice_set};
ghost use Rattle.region_bytes.specs.Extents.{bytes_of, extents_of};

/// The bytes of an extent.
pub fn bytes_at(extents: &[Option<Vec<u8>>], x: u32) -> &[u8]
    requires { IsSome (bytes_of (extents_of extents.now) x) }
    ensures { bytes_of (extents_of extents.now) x ≡ Some result.now }
{
    match &extents[x as usize - 1] {
        Some(bytes) => bytes.as_slice(),
        // It was made and not forgotten.
        None => unreachable!(),
    }
}

/// Takes the bytes of an extent out.
pub fn take_bytes(extents: &mut Vec<Option<Vec<u8>>>, x: u32) -> Vec<u8>
    requires { IsSome (bytes_of (extents_of extents.old.items) x) }
    ensures bytes { bytes_of (extents_of extents.old.items) x ≡ Some result.items }
    ensures rest { extents_of extents.new.items
        ≡ slice_set (extents_of extents.old.items) (x - 1) None }
{
    match extents[x as usize - 1].take() {
        Some(bytes) => bytes,
        // It was made and not forgotten.
        None => unreachable!(),
    }
}

/// Puts bytes into the place of an extent.
pub fn put_bytes(extents: &mut Vec<Option<Vec<u8>>>, x: u32, bytes: Vec<u8>)
    requires first { 1 ≤ x }
    requires last { x ≤ length extents.old.items }
    ensures { extents_of extents.new.items
        ≡ slice_set (extents_of extents.old.items) (x - 1) (Some bytes.items) }
{
    extents[x as usize - 1] = Some(bytes);
}
