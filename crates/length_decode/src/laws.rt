//! Laws of spellings.
ghost use Rattle.length_decode.specs.Forms.{AreFormed};
ghost use Rattle.length_decode.specs.Laws.{IsPrefixFree, HasOneParts, HasOneFields, IsReadBack, IsSpelledBack, IsDecoded};

/// No proper prefix of a spelling is a spelling.
pub fn prefix_free()
    ensures { IsPrefixFree }
{}

/// A spelling has one set of parts, and bytes begin with the fields of one instruction at most.
pub fn one_reading()
    ensures parts { HasOneParts }
    ensures fields { HasOneFields }
{}

/// Reading the front of bytes and spelling are each other's inverse.
pub fn read_back()
    ensures again { IsReadBack }
    ensures spelled { IsSpelledBack }
{}

/// A spelling followed by anything decodes to its parts.
pub fn decoded()
    ensures { IsDecoded }
{}

/// Code of known opcodes is spelled with any displacement and immediate.
pub fn known_code()
    ensures { AreFormed }
{}
