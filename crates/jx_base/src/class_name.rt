//! Names of classes.
ghost use Rattle.std.specs.Prelude.{◌≡◌};
ghost use Rattle.std.specs.List.{list_all};
ghost use Rattle.jx_base.specs.ClassNames.{is_name_byte, has_filled_parts, is_reserved};
ghost use Rattle.jx_base.specs.ClassNames.{is_class_name};

#[tactic(auto, unfolding(crate::specs::ClassNames::is_name_byte))]
fn is_name_byte(byte: u8) -> bool
    ensures { result ≡ is_name_byte byte }
{
    matches!(byte, b'a'..=b'z' | b'A'..=b'Z' | b'0'..=b'9' | b'_' | b'$' | b'/')
}

fn has_name_bytes(name: &[u8]) -> bool
    ensures { result ≡ list_all is_name_byte name.now }
{
    name.iter().all(|byte| is_name_byte(*byte))
}

#[tactic(auto, unfolding(crate::specs::ClassNames::has_filled_parts))]
fn has_filled_parts(name: &[u8]) -> bool
    ensures { result ≡ has_filled_parts name.now }
{
    let mut previous = b'/';
    for byte in name {
        if previous == b'/' && *byte == b'/' {
            return false;
        }
        previous = *byte;
    }
    previous != b'/'
}

#[tactic(auto, unfolding(crate::specs::ClassNames::is_reserved))]
fn is_reserved(name: &[u8]) -> bool
    ensures { result ≡ is_reserved name.now }
{
    name.starts_with(b"java/") || name.starts_with(b"jx/")
}

/// Whether a description may list a class of this name: 1 to 255 bytes of ASCII letters, digits,
/// `_`, `$` and `/`, with no empty part between slashes or at an end, not in `java/` or `jx/`.
#[tactic(auto, unfolding(crate::specs::ClassNames::is_class_name))]
pub fn is_class_name(name: &[u8]) -> bool
    ensures { result ≡ is_class_name name.now }
{
    name.len() <= 255 && !is_reserved(name) && has_filled_parts(name) && has_name_bytes(name)
}
