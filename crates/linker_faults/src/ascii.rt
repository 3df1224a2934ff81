//! Texts compared with ASCII.
ghost use Rattle.std.specs.Prelude.{◌≡◌};
ghost use Rattle.std.specs.List.{list_any};
ghost use Rattle.std.specs.Str.{bytes_eq};

/// Whether the name is that text in ASCII.
pub fn is_text(name: &[u16], ascii: &str) -> bool
    ensures { result ≡ bytes_eq name.now ascii.now }
{
    let bytes = ascii.as_bytes();
    if name.len() != bytes.len() {
        return false;
    }
    for (i, byte) in bytes.iter().enumerate() {
        if name[i] != u16::from(*byte) {
            return false;
        }
    }
    true
}

/// Whether the name is one of those texts in ASCII.
pub fn is_among(name: &[u16], texts: &[&str]) -> bool
    ensures { result ≡ list_any (λ text. bytes_eq name.now text.now) texts.now }
{
    texts.iter().any(|text| is_text(name, text))
}
