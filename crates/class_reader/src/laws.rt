//! Bytes are one class file or none, in one way.
ghost use Rattle.std.specs.Prelude.{◌≡◌, ℕ, List};
ghost use Rattle.class_grammar.specs.ClassGrammar.{IsClassFile, IsClassFault};
ghost use Rattle.class_grammar.specs.Constants.{class_fault};
ghost use Rattle.class_grammar.specs.ModifiedUtf8.{IsModifiedUtf8};
ghost use Rattle.jx_base.specs.declared.class_file.ClassFile.{ClassFile};
ghost use Rattle.jx_base.specs.declared.fault.ClassKind.{ClassKind};

/// The law that the grammar is read in one way: two class files of the same bytes are one, as are
/// two first faults, no bytes have both, a text has one spelling, and bytes spell one text.
pub fn one_reading()
    ensures one_file { (bytes : List ℕ) (a b : ClassFile) → IsClassFile bytes a
        → IsClassFile bytes b → a ≡ b }
    ensures one_fault { (bytes : List ℕ) (i j : ℕ) (k l : ClassKind) → IsClassFault bytes i k
        → IsClassFault bytes j l → class_fault i k ≡ class_fault j l }
    ensures never_both { (bytes : List ℕ) (file : ClassFile) (at : ℕ) (kind : ClassKind)
        → IsClassFile bytes file → IsClassFault bytes at kind → ⊥ }
    ensures one_spelling { (a b units : List ℕ) → IsModifiedUtf8 a units → IsModifiedUtf8 b units
        → a ≡ b }
    ensures one_text { (bytes a b : List ℕ) → IsModifiedUtf8 bytes a → IsModifiedUtf8 bytes b
        → a ≡ b }
{}
