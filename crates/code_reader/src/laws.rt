//! Laws of code.
ghost use Rattle.code_reader.specs.CodeLaws.{IsOneCode, IsOneFault, IsEitherCodeOrFault};
ghost use Rattle.code_reader.specs.CodeLaws.{IsReadAlone, IsInOrder, IsWithinCode};

/// Does nothing. Its clauses are the laws: code is read in one way, and its instructions stand in
/// order.
pub fn one_reading()
    ensures one_code { IsOneCode }
    ensures one_fault { IsOneFault }
    ensures never_both { IsEitherCodeOrFault }
    ensures read_alone { IsReadAlone }
    ensures in_order { IsInOrder }
    ensures within_code { IsWithinCode }
{}
