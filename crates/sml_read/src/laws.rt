//! Laws of the grammar's tables, and of what is read.
ghost use Rattle.sml_read.specs.Exact.{TablesAreExact};
ghost use Rattle.sml_read.specs.Unique.{ReadingIsUnique};

/// The tables say which parts may be empty, and with which tokens a part may begin, exactly as the rules do.
pub fn tables_are_exact()
    ensures { TablesAreExact }
{}

/// Tokens are read in one way.
pub fn reading_is_unique()
    ensures { ReadingIsUnique }
{}
