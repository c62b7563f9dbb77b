//! Names of a rule and their scope (docs/RULES.md, "Names").

/// What makes a new name.
#[derive(Clone, Copy)]
pub(crate) enum Maker {
    State,
    Table,
    Let,
    For,
    /// `count`, `least` or `sorted`.
    Aggregate,
}

impl Maker {
    /// Returns the column such that a line further left ends the name. `column` is that of its line.
    pub(crate) fn column(self, column: usize, is_inside: bool) -> usize {
        match self {
            Maker::State | Maker::Table => 0,
            Maker::Let if is_inside => usize::MAX,
            Maker::Let => column,
            Maker::For => column.saturating_add(1),
            Maker::Aggregate => usize::MAX,
        }
    }

    /// Returns true if the name can be used in its own line.
    pub(crate) fn is_visible(self) -> bool {
        match self {
            Maker::Let => false,
            Maker::State | Maker::Table | Maker::For | Maker::Aggregate => true,
        }
    }
}

/// A name that was made.
#[derive(Clone, Copy)]
pub(crate) struct Declared<'a> {
    pub(crate) name: &'a str,
    pub(crate) line: usize,
    pub(crate) maker: Maker,
    /// A line further left ends it.
    pub(crate) column: usize,
    /// The number of parts around it, with fewer of which the name of an aggregate ends.
    pub(crate) depth: usize,
    pub(crate) is_visible: bool,
    pub(crate) is_ended: bool,
}

impl Declared<'_> {
    pub(crate) fn begin_line(&mut self, column: usize) {
        self.is_visible = true;
        if column < self.column {
            self.is_ended = true;
        }
    }

    /// Ends a part: this many are left.
    pub(crate) fn leave(&mut self, depth: usize) {
        if matches!(self.maker, Maker::Aggregate) && depth < self.depth {
            self.is_ended = true;
        }
    }

    pub(crate) fn is_in_scope(&self) -> bool {
        self.is_visible && !self.is_ended
    }
}
