//! The board's rule, and what each step on its word tells.
use atomic_table::{Join, Play, Split, TableRule};
use bench_core::Row;
use std::collections::LinkedList;

/// What a seat knows. No value of it is made.
pub(crate) struct View {
    /// Whether it is the engine's, which alone posts.
    pub(crate) posts: bool,
    /// What it posted or saw.
    pub(crate) rows: LinkedList<Row>,
    /// What a watcher had seen that met the engine.
    pub(crate) heard: LinkedList<Row>,
}

/// The rule: the word shows the last posted row, and what a seat knows is a beginning of what was posted.
pub(crate) struct Posting;

impl TableRule<(), View, ()> for Posting {
    ghost use Rattle.std.specs.Prelude.{[]};
    ghost use Rattle.bench_shared.specs.inner.Boards.{Kept, engine};

    ghost holds = { λ _. Kept };

    ghost first = { λ _. engine [] };
}

/// The engine stores a row's word.
pub(crate) struct Post;

impl Play<(), View> for Post {
    ghost use Rattle.bench_shared.specs.inner.Boards.{Posts};

    ghost then = { Posts };
}

/// A watcher loads the word.
pub(crate) struct Look;

impl Play<(), View> for Look {
    ghost use Rattle.bench_shared.specs.inner.Boards.{Looks};

    ghost then = { Looks };
}

/// The engine loads the word, and learns that what it heard is a beginning of what it posted.
pub(crate) struct Compare;

impl Play<(), View> for Compare {
    ghost use Rattle.bench_shared.specs.inner.Boards.{Compares};

    ghost then = { Compares };
}

/// A seat that has seen what the engine posted is split off the engine's.
pub(crate) struct Tell;

impl Split<View> for Tell {
    ghost use Rattle.bench_shared.specs.inner.Boards.{watcher};

    ghost left = { λ v. v };

    ghost right = { λ v. watcher v.rows };
}

/// A seat that has seen nothing is split off the engine's.
pub(crate) struct Newcomer;

impl Split<View> for Newcomer {
    ghost use Rattle.std.specs.Prelude.{[]};
    ghost use Rattle.bench_shared.specs.inner.Boards.{watcher};

    ghost left = { λ v. v };

    ghost right = { λ v. watcher [] };
}

/// A watcher's seat is joined to the engine's, which hears what it had seen.
pub(crate) struct Hear;

impl Join<View> for Hear {
    ghost use Rattle.std.specs.Prelude.{[]};
    ghost use Rattle.bench_shared.specs.inner.Boards.{watcher, hearing};

    ghost both = { hearing };

    ghost spent = { watcher [] };
}
