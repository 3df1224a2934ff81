//! Laws of the code that is assembled.
ghost use Rattle.asm_code_laws.specs.CodeLaws.{IsReadAsWritten, IsCodeAsWritten};

/// Does nothing. Its clauses are the laws: the code of a body is read as the body's instructions,
/// and it is code where its lines aim well.
pub fn assembled_code()
    ensures read_as_written { IsReadAsWritten }
    ensures code_as_written { IsCodeAsWritten }
{}
