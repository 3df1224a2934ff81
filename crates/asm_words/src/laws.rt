//! What lines, words and texts in quotes are.
ghost use Rattle.asm_words.specs.TextLaws.{HasItsLines, HasNoOtherLines, HasItsWords};
ghost use Rattle.asm_words.specs.TextLaws.{HasNoOtherWords, IsReadQuoted, IsQuotedRead};

/// Does nothing. Its clauses are the laws: a text has just its lines, a line just its words, and
/// texts in quotes are read as they are written.
pub fn one_reading()
    ensures lines { HasItsLines }
    ensures only_lines { HasNoOtherLines }
    ensures words { HasItsWords }
    ensures only_words { HasNoOtherWords }
    ensures quoted_so { IsReadQuoted }
    ensures read_so { IsQuotedRead }
{}
