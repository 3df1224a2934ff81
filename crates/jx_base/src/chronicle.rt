//! A value that lists what was done.
ghost use Rattle.std.specs.Prelude.{◌≡◌, List, length};
ghost use Rattle.jx_base.specs.declared.act.Entry.{Entry};
ghost use Rattle.jx_base.specs.declared.program.System.{System};
ghost use Rattle.jx_base.specs.Births.{IsNumbered};

/// A value that stands for a system and for a list of entries, the first one first.
pub trait Chronicle {
    /// The system that the entries are about.
    ghost system: { Self → System };

    /// The entries, the first one first.
    ghost entries: { Self → List Entry };

    /// How many entries there are.
    fn count(&self) -> u32
        ensures count { result ≡ length (entries self.now) }
        ensures numbered { IsNumbered (entries self.now) };
}
