//! Laws of what the files give.
ghost use Rattle.jx_top.specs.Requests.{IsOneOutcome, IsOneSystem};

/// Does nothing. Its clauses are the laws: the files give a command one outcome at most, and a file
/// word one system at most.
pub fn files_decide()
    ensures one_outcome { IsOneOutcome }
    ensures one_system { IsOneSystem }
{}
