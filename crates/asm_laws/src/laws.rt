//! Laws of what is assembled.
ghost use Rattle.asm_laws.specs.Laws.{IsAClassFile, IsNoOtherClassFile};

/// Does nothing. Its clauses are the law: what is assembled is a class file just where a class file
/// may have what each line says.
pub fn assembled_classes()
    ensures class_file { IsAClassFile }
    ensures no_other { IsNoOtherClassFile }
{}
