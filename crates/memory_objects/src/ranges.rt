//! Ranges of bytes within a part.
ghost use Rattle.std.specs.Prelude.{◌≡◌};
ghost use Rattle.memory_objects.specs.Ranges as Spec;
ghost use Rattle.memory_objects.specs.Ranges.{side_in, span_in};

/// So many bytes from a place on.
#[derive(Clone, Copy)]
pub struct Span {
    pub at: u32,
    pub count: u32,
}

// The number, where it isn't below 0.
fn natural(number: i32) -> Option<u32>
    ensures { result ≡ Spec.natural number }
{
    if number < 0 {
        None
    } else {
        Some(number as u32)
    }
}

/// So many bytes from there. `None` where they don't lie within that size.
pub fn span_within(at: i32, count: i32, size: u32) -> Option<Span>
    ensures { result ≡ span_in at count size }
{
    let at = natural(at)?;
    let count = natural(count)?;
    let rest = size.checked_sub(at)?;
    if rest < count {
        return None;
    }
    Some(Span { at, count })
}

/// The bytes on the first side of a cut there. `None` where a side has none.
pub fn side_within(at: i32, size: u32) -> Option<u32>
    ensures { result ≡ side_in at size }
{
    let at = natural(at)?;
    if at == 0 {
        return None;
    }
    if at >= size {
        return None;
    }
    Some(at)
}
