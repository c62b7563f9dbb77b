//! Laws of names.

ghost use Rattle.properties.specs.Laws.{NamesHaveLocals};

/// States that each name has a local of its own.
pub fn names()
    ensures { NamesHaveLocals }
{}
