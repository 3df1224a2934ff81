//! The flags of classes and of their members (JVMS 4.1, 4.5, 4.6).
ghost use Rattle.std.specs.Prelude.{◌≡◌, ◌<◌};
ghost use Rattle.class_grammar.specs.Flags as Spec;

// Whether the flags have this one.
#[tactic(auto, unfolding(crate::specs::Flags::has_flag))]
fn has_flag(flag: u16, flags: u16) -> bool
    requires { 0 < flag }
    ensures { result ≡ Spec.has_flag flag flags }
{
    flags / flag % 2 == 1
}

/// Of a field or a method that belongs to its class.
#[tactic(auto, unfolding(crate::specs::Flags::is_static))]
pub fn is_static(flags: u16) -> bool
    ensures { result ≡ Spec.is_static flags }
{
    has_flag(0x0008, flags)
}

/// Of a method that locks its object.
#[tactic(auto, unfolding(crate::specs::Flags::is_synchronized))]
pub fn is_synchronized(flags: u16) -> bool
    ensures { result ≡ Spec.is_synchronized flags }
{
    has_flag(0x0020, flags)
}

/// Of a method whose code is elsewhere.
#[tactic(auto, unfolding(crate::specs::Flags::is_native))]
pub fn is_native(flags: u16) -> bool
    ensures { result ≡ Spec.is_native flags }
{
    has_flag(0x0100, flags)
}

/// Of a class that is an interface.
#[tactic(auto, unfolding(crate::specs::Flags::is_interface_flag))]
pub fn is_interface_flag(flags: u16) -> bool
    ensures { result ≡ Spec.is_interface_flag flags }
{
    has_flag(0x0200, flags)
}

/// Of a class or a method without all its code.
#[tactic(auto, unfolding(crate::specs::Flags::is_abstract))]
pub fn is_abstract(flags: u16) -> bool
    ensures { result ≡ Spec.is_abstract flags }
{
    has_flag(0x0400, flags)
}
