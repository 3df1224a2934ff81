//! A value that follows a domain.
ghost use Rattle.std.specs.Prelude.{ℕ};

/// A value that stands for a domain of a system: for the template that the domain is of, and for its
/// own entries, the newest one first. It need not store them.
pub trait Follower {
    ghost use Rattle.jx_base.specs.declared.program.System.{System};
    ghost use Rattle.jx_base.specs.Histories.{Past};

    /// Whether it stands for the system, the template of that place and these entries.
    ghost stands: { Self → System → ℕ → Past → Type 0 };
}
