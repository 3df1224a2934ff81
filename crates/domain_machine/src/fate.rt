//! How far a machine is on its way.
ghost use Rattle.std.specs.Prelude.{◌≡◌};
ghost use Rattle.domain_machine.specs.Fates as Spec;

/// How far a machine is on its way to its next act.
#[derive(Clone, Copy)]
pub enum Fate {
    /// Some of the instructions before the next act may have run.
    OnTheWay,
    /// The next act comes now, or no thread runs.
    AtAct,
    /// The running thread met bad code, and the domain ends next. What the machine holds is open.
    MetBadCode,
    /// The domain ended by bad code.
    Over,
}

/// How far it is after an entry, or at the start.
pub fn fate_after(bad: bool) -> Fate
    ensures { result ≡ Spec.fate_after bad }
{
    if bad {
        Fate::MetBadCode
    } else {
        Fate::OnTheWay
    }
}
