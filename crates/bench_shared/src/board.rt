//! The board that watchers read without waiting.
ghost use Rattle.std.specs.Prelude.{◌≡◌, ◌+◌, [], ◌∷◌, ◌++◌, length, IfOk};
ghost use Rattle.bench_shared.specs.Rows.{last_row, InOrder, StartsWith};
ghost use Rattle.bench_shared.specs.inner.Rows.{pulse_of};

use crate::rule::{Compare, Hear, Look, Newcomer, Post, Posting, Tell, View};
use crate::word::{row, word};
use atomic_table::{Seat, Table};
use bench_core::Row;
use std::alloc::{AllocError, Global};
use std::marker::Model;
use std::mem;

/// Shows the last row that the engine posted. None of its calls waits.
#[derive(Drop)]
pub struct Board {
    table: Table<(), View, (), Posting, Global>,
}

impl Model for Board {
    ghost use Rattle.std.specs.Prelude.{◌≡◌};
    ghost use Rattle.atomic_table.specs.Seated.{TableId, table_id_coded};

    ghost Value = { TableId };

    ghost coded = { table_id_coded };

    ghost view = { λ b. b.table.shared.table_id };

    ghost invariant = { λ b. b.table.shared.table_id.words ≡ 1 };
}

/// The engine's seat at a board, with the rows that it posted.
#[derive(Drop)]
pub(crate) struct EngineSeat {
    seat: Seat<(), View>,
    count: u32,
}

impl Model for EngineSeat {
    ghost use Rattle.std.specs.Prelude.{◌≡◌, [], length};
    ghost use Rattle.bench_shared.specs.inner.Boards.{engine};
    ghost use Rattle.bench_shared.specs.Rows.{InOrder};
    ghost use Rattle.bench_shared.specs.Seats.{SeatView};

    ghost Value = { SeatView };

    ghost view = { λ s. record { board = s.seat.table_id; rows = s.seat.me.0.rows } };

    ghost invariant = { λ s. record {
      seat : s.seat.me ≡ (engine s.seat.me.0.rows, []);
      counted : s.count ≡ length s.seat.me.0.rows;
      order : InOrder s.seat.me.0.rows;
    } };
}

/// A watcher's right to look at a board, and the rows that it has seen.
#[derive(Drop)]
pub struct WatchPass {
    seat: Seat<(), View>,
    count: u32,
}

impl Model for WatchPass {
    ghost use Rattle.std.specs.Prelude.{◌≡◌, [], length};
    ghost use Rattle.bench_shared.specs.inner.Boards.{watcher};
    ghost use Rattle.bench_shared.specs.Rows.{InOrder};
    ghost use Rattle.bench_shared.specs.Seats.{SeatView};

    ghost Value = { SeatView };

    ghost view = { λ s. record { board = s.seat.table_id; rows = s.seat.me.0.rows } };

    ghost invariant = { λ s. record {
      seat : s.seat.me ≡ (watcher s.seat.me.0.rows, []);
      counted : s.count ≡ length s.seat.me.0.rows;
      order : InOrder s.seat.me.0.rows;
    } };
}

/// Returns the number of the row's pulse, or 0 without a row.
fn pulse(row: &Option<Row>) -> u32
    ensures { result ≡ pulse_of row.now }
{
    match row {
        Some(row) => row.pulse,
        None => 0,
    }
}

impl Board {
    /// Returns a board with no row, and the engine's seat at it.
    pub(crate) fn new(alloc: Global) -> Result<(Board, EngineSeat), AllocError>
        ensures { IfOk result (λ r. (r.1.board ≡ r.0) × (r.1.rows ≡ [])) }
    {
        let (table, seat) = Table::of_words(alloc, &[0], &())?;
        Ok((Board { table }, EngineSeat { seat, count: 0 }))
    }

    /// Returns a watcher that has seen nothing.
    pub(crate) fn watcher(&self, engine: &mut EngineSeat) -> WatchPass
        requires { engine.old.board ≡ self.now }
        ensures pass { (result.board ≡ self.now) × (result.rows ≡ []) }
        ensures same { engine.new ≡ engine.old }
    {
        let seat = self.table.shared.split_seat::<Newcomer>(&mut engine.seat);
        WatchPass { seat, count: 0 }
    }

    /// Puts the row of the next pulse last.
    pub(crate) fn post_row(&self, engine: &mut EngineSeat, posted: Row)
        requires board { engine.old.board ≡ self.now }
        requires next { posted.pulse ≡ length engine.old.rows + 1 }
        ensures board { engine.new.board ≡ engine.old.board }
        ensures last { engine.new.rows ≡ engine.old.rows ++ posted ∷ [] }
        ensures order { InOrder engine.new.rows }
    {
        self.table
            .shared
            .store::<Post>(&mut engine.seat, 0, word(posted));
        engine.count = posted.pulse;
    }

    /// Returns the last posted row, or none. The rows seen so far are a prefix of those seen then, and this row is
    /// their last.
    pub fn look(&self, watch: &mut WatchPass) -> Option<Row>
        requires { watch.old.board ≡ self.now }
        ensures board { watch.new.board ≡ watch.old.board }
        ensures later { StartsWith watch.new.rows watch.old.rows }
        ensures last { result ≡ last_row watch.new.rows }
        ensures order { InOrder watch.new.rows }
    {
        let found = row(self.table.shared.load::<Look>(&mut watch.seat, 0));
        watch.count = pulse(&found);
        found
    }

    /// Shows the watcher what was posted, and returns how many rows of it were new.
    pub(crate) fn meet_seat(&self, engine: &mut EngineSeat, watch: &mut WatchPass) -> u32
        requires board { (engine.old.board ≡ self.now) × (watch.old.board ≡ self.now) }
        ensures same { engine.new ≡ engine.old }
        ensures board { watch.new.board ≡ watch.old.board }
        ensures began { StartsWith engine.old.rows watch.old.rows }
        ensures seen { watch.new.rows ≡ engine.old.rows }
        ensures count { length engine.old.rows ≡ length watch.old.rows + result }
    {
        let note = self.table.shared.split_seat::<Tell>(&mut engine.seat);
        let old = mem::replace(&mut watch.seat, note);
        self.table.shared.join_seat::<Hear>(&mut engine.seat, old);
        self.table.shared.load::<Compare>(&mut engine.seat, 0);
        let new = engine.count - watch.count;
        watch.count = engine.count;
        new
    }
}
