//! The passes of a shared bench, with their receipts.
ghost use Rattle.std.specs.Prelude.{◌≡◌, ◌+◌, ◌∷◌, [], ◌++◌, length, None, Some, option_to_list};
ghost use Rattle.bench_shared.specs.Rows.{InOrder, StartsWith};
ghost use Rattle.bench_shared.specs.Passes.{rows_in};
ghost use Rattle.bench_shared.specs.Receipts.{placed_receipts};

use crate::board::{Board, EngineSeat, WatchPass};
use bench_core::{Entry, Row};
use std::marker::{Model, PhantomData};
use std::sync::ledger::{Ledger, Share};

/// An entry that the pass's actor put into the history, and its place there.
#[derive(Drop)]
pub struct Receipt {
    pub place: usize,
    pub entry: Entry,
}

/// A loader's right to stage changes.
#[derive(Drop)]
pub struct LoaderPass<B: Ledger, C: Ledger> {
    pub(crate) number: u32,
    pub(crate) share: Share<B>,
    pub(crate) receipts: Vec<Receipt>,
    pub(crate) closes: PhantomData<C>,
}

impl<B: Ledger, C: Ledger> Model for LoaderPass<B, C> {
    ghost use Rattle.std.specs.Prelude.{◌≡◌, length};
    ghost use Rattle.bench_shared.specs.Passes.{LoaderView};
    ghost use Rattle.bench_shared.specs.Receipts.{placed_receipts};

    ghost Value = { LoaderView };

    ghost view = { λ p. record { number = p.number; receipts = placed_receipts p.receipts.items } };

    ghost invariant = { λ p. record {
      part : p.share.parts ≡ 1;
      counted : p.share.amount ≡ length p.receipts.items;
    } };
}

/// The engine's right to open and end pulses, and to post their rows.
#[derive(Drop)]
pub struct EnginePass<B: Ledger, C: Ledger> {
    pub(crate) seat: EngineSeat,
    pub(crate) share: Share<B>,
    pub(crate) closes: Share<C>,
    pub(crate) receipts: Vec<Receipt>,
    pub(crate) owed: Option<Row>,
    /// Whether it opened a pulse that it hasn't ended. There is room for the receipt of the end.
    pub(crate) is_open: bool,
}

impl<B: Ledger, C: Ledger> Model for EnginePass<B, C> {
    ghost use Rattle.std.specs.Prelude.{◌≡◌, ◌++◌, ◌<◌, true, length, vec_len, vec_capacity, option_to_list};
    ghost use Rattle.bench_shared.specs.Passes.{EngineView, rows_in};
    ghost use Rattle.bench_shared.specs.Receipts.{placed_receipts};
    ghost use Rattle.bench_shared.specs.Rows.{InOrder};

    ghost Value = { EngineView };

    ghost view = { λ p. record {
      board = p.seat.board;
      receipts = placed_receipts p.receipts.items;
      posted = p.seat.rows;
      owed = p.owed;
    } };

    ghost invariant = { λ p. record {
      part : p.share.parts ≡ 1;
      counted : p.share.amount ≡ length p.receipts.items;
      close_part : p.closes.parts ≡ 1;
      close_whole : p.closes.parts ≡ C.parts;
      closes_counted : p.closes.amount ≡ length (rows_in (placed_receipts p.receipts.items));
      rows : rows_in (placed_receipts p.receipts.items) ≡ p.seat.rows ++ option_to_list p.owed;
      order : InOrder (rows_in (placed_receipts p.receipts.items));
      room : p.is_open ≡ true → vec_len p.receipts < vec_capacity p.receipts;
    } };
}

impl<B: Ledger, C: Ledger> LoaderPass<B, C> {
    /// Returns what it staged, in order.
    pub fn receipts(&self) -> &[Receipt]
        ensures { placed_receipts result.now ≡ self.now.receipts }
    {
        &self.receipts
    }
}

impl<B: Ledger, C: Ledger> EnginePass<B, C> {
    /// Returns what it opened, closed and abandoned, in order.
    pub fn receipts(&self) -> &[Receipt]
        ensures receipts { placed_receipts result.now ≡ self.now.receipts }
        ensures rows { rows_in self.now.receipts ≡ self.now.posted ++ option_to_list self.now.owed }
        ensures order { InOrder (rows_in self.now.receipts) }
    {
        &self.receipts
    }

    /// Returns the row of the last close until it is posted.
    pub fn owes(&self) -> Option<Row>
        ensures { result ≡ self.now.owed }
    {
        self.owed
    }
}

impl Board {
    /// Posts the row that the engine owes.
    pub fn post<B: Ledger, C: Ledger>(&self, pass: &mut EnginePass<B, C>, row: Row)
        requires board { pass.old.board ≡ self.now }
        requires owed { pass.old.owed ≡ Some row }
        ensures posted { pass.new.posted ≡ pass.old.posted ++ row ∷ [] }
        ensures paid { pass.new.owed ≡ None }
        ensures receipts { pass.new.receipts ≡ pass.old.receipts }
        ensures board { pass.new.board ≡ pass.old.board }
        ensures order { InOrder pass.new.posted }
    {
        self.post_row(&mut pass.seat, row);
        pass.owed = None;
    }

    /// Returns how many rows the engine posted after the last that the watcher saw. From then on the watcher has seen
    /// them all.
    pub fn meet<B: Ledger, C: Ledger>(
        &self,
        pass: &mut EnginePass<B, C>,
        watch: &mut WatchPass,
    ) -> u32
        requires engine { pass.old.board ≡ self.now }
        requires watcher { watch.old.board ≡ self.now }
        ensures same { pass.new ≡ pass.old }
        ensures board { watch.new.board ≡ watch.old.board }
        ensures began { StartsWith pass.old.posted watch.old.rows }
        ensures seen { watch.new.rows ≡ pass.old.posted }
        ensures count { length pass.old.posted ≡ length watch.old.rows + result }
    {
        self.meet_seat(&mut pass.seat, watch)
    }
}
