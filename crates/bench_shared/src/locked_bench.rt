//! What lies under the lock.
ghost use Rattle.std.specs.Prelude.{◌≡◌, ◌+◌, ◌<◌, ℕ, List, [], length, map, All, IfOk, IfErr};
ghost use Rattle.std.specs.Prelude.{IsTrue, OnOk, OnErr, Some};
ghost use Rattle.bench_core.specs.Told.{IsPulseRow, IsRecord};
ghost use Rattle.bench_core.specs.Replay.{Advances, Staged, Opened, Closed, Abandoned, rows_of};
ghost use Rattle.bench_core.specs.Replay.{Replays, StagesAccepted};
ghost use Rattle.bench_core.specs.Refusals.{IsStageRefusal, IsOpenRefusal};
ghost use Rattle.bench_core.specs.Setup.{IsSetup};
ghost use Rattle.bench_core.specs.Tasks.{tasks_of};
ghost use Rattle.bench_core.specs.Views.{change_of, entry_of, setup_with};
ghost use Rattle.bench_shared.specs.Plans.{HandsOut};
ghost use Rattle.bench_shared.specs.Receipts.{placed_receipts};
ghost use Rattle.bench_shared.specs.Told.{OpenedLast, TellsAgreement};

use crate::passes::Receipt;
use bench_core::{
    Actor, Bench, Change, ClockProgram, CloseError, Entry, NodeDone, NodeTask, OpenError,
    PulseRecord, StageError,
};
use clock_nodes::ClockRule;
use node_env::Shape;
use std::alloc::Global;
use std::sync::ledger::{Book, Ledger, Share};

/// The bench, with a book of its entries and a book of its closes. Each share of the first counts a pass's receipts,
/// and the one share of the second the engine's closes.
#[derive(Drop)]
pub(crate) struct LockedBench<B: Ledger, C: Ledger> {
    bench: Bench,
    entries: Book<B>,
    closes: Book<C>,
    ghost entries_counted: { entries.total ≡ length bench.history },
    ghost closes_counted: { closes.total ≡ length (rows_of bench.history) },
}

impl<B: Ledger, C: Ledger> LockedBench<B, C> {
    /// Returns a new bench, and books that count nothing.
    pub(crate) fn new(bench: Bench, entries: Book<B>, closes: Book<C>) -> LockedBench<B, C>
        requires entries { entries.total ≡ 0 }
        requires closes { closes.total ≡ 0 }
        requires history { bench.history ≡ [] }
        ensures { result.bench ≡ bench }
    {
        LockedBench {
            bench,
            entries,
            closes,
        }
    }

    /// Returns true if the bench is of this shape, rule and clock.
    pub(crate) fn is_of(&self, shape: Shape, rule: ClockRule, clock: &ClockProgram) -> bool
        ensures { IsTrue result → self.now.bench.setup ≡ setup_with shape rule clock.now }
    {
        self.bench.shape() == shape
            && self.bench.rule() == rule
            && self.bench.clock_program().same(clock)
    }

    /// Returns true if the change can be staged but for lack of memory.
    pub(crate) fn has_room_for(&self, change: &Change) -> bool {
        self.bench.would_refuse(change).is_none()
    }

    /// Returns true if a pulse is open.
    pub(crate) fn is_open(&self) -> bool {
        self.bench.is_open()
    }

    /// Returns true if the open pulse has the coins of the opening that the last of these receipts is for.
    pub(crate) fn has_coins_of(&self, receipts: &[Receipt]) -> bool
        ensures { IsTrue result → (coins : List ℕ) × OpenedLast (placed_receipts receipts.now) coins
            × (self.now.bench.state.coins ≡ Some coins) }
    {
        let Some(receipt) = receipts.last() else {
            return false;
        };
        match &receipt.entry {
            Entry::Opened { coins } => self.bench.has_coins(coins),
            Entry::Staged { .. } | Entry::Closed { .. } | Entry::Abandoned => false,
        }
    }

    /// Returns true if the history has the two places of a pulse.
    pub(crate) fn has_room_to_open(&self) -> bool {
        self.bench.has_room_to_open()
    }

    /// Returns what was done, in order.
    pub(crate) fn history(&self) -> &[Entry]
        ensures { map entry_of result.now ≡ self.now.bench.history }
    {
        self.bench.history()
    }

    /// Returns what was done, in order, from a bench that is no longer wanted.
    pub(crate) fn into_history(self) -> Vec<Entry>
        ensures entries { map entry_of result.items ≡ self.bench.history }
        ensures replays { Replays self.bench.setup self.bench.history self.bench.state }
        ensures accepted { All StagesAccepted self.bench.history }
        ensures setup { IsSetup self.bench.setup }
    {
        let LockedBench { bench, .. } = self;
        bench.into_history()
    }

    /// Stages a change, and counts it. The answer is the entry's place.
    pub(crate) fn stage(
        &mut self,
        actor: Actor,
        change: Change,
        share: &mut Share<B>,
    ) -> Result<usize, (Change, StageError)>
        requires { 0 < share.old.parts }
        ensures ok { OnOk result (Advances self.old.bench (Staged actor (change_of change)) self.new.bench) }
        ensures place { IfOk result (λ place. place ≡ length self.old.bench.history) }
        ensures counted { OnOk result (share.new.amount ≡ share.old.amount + 1) }
        ensures parts { share.new.parts ≡ share.old.parts }
        ensures refusal { IfErr result (λ e. IsStageRefusal self.old.bench (change_of change) e.1) }
        ensures unchanged { OnErr result (self.new.bench ≡ self.old.bench) }
        ensures uncounted { OnErr result (share.new ≡ share.old) }
        ensures handed_back { IfErr result (λ e. e.0 ≡ change) }
    {
        let place = self.bench.history().len();
        self.bench.stage(actor, change)?;
        self.entries.add(share, 1);
        Ok(place)
    }

    /// Opens a pulse, and counts the entry. The answer is the entry's place, and the pulse's tasks.
    pub(crate) fn open(
        &mut self,
        alloc: Global,
        coins: &[u32],
        share: &mut Share<B>,
    ) -> Result<(usize, Vec<NodeTask>), OpenError>
        requires { 0 < share.old.parts }
        ensures ok { OnOk result (Advances self.old.bench (Opened coins.now) self.new.bench) }
        ensures place { IfOk result (λ r. r.0 ≡ length self.old.bench.history) }
        ensures tasks { IfOk result (λ r. HandsOut self.old.bench.setup coins.now r.1.items) }
        ensures counted { OnOk result (share.new.amount ≡ share.old.amount + 1) }
        ensures parts { share.new.parts ≡ share.old.parts }
        ensures refusal { IfErr result (λ e. IsOpenRefusal self.old.bench coins.now e) }
        ensures unchanged { OnErr result (self.new.bench ≡ self.old.bench) }
        ensures uncounted { OnErr result (share.new ≡ share.old) }
    {
        let place = self.bench.history().len();
        let tasks = self.bench.open_pulse(alloc, coins)?;
        let _history = self.bench.history(); // brings its replay
        self.entries.add(share, 1);
        Ok((place, tasks))
    }

    /// Closes the pulse, and counts the entry twice. Its row is of the pulse after those that `closes` counts. The
    /// answer is the entry's place, and the record.
    pub(crate) fn close(
        &mut self,
        alloc: Global,
        dones: Vec<NodeDone>,
        share: &mut Share<B>,
        closes: &mut Share<C>,
    ) -> Result<(usize, PulseRecord), (Vec<NodeDone>, CloseError)>
        requires share { 0 < share.old.parts }
        requires closes { 0 < closes.old.parts }
        requires whole { closes.old.parts ≡ C.parts }
        ensures ok { IfOk result (λ r. Advances self.old.bench (Closed r.1.row) self.new.bench) }
        ensures place { IfOk result (λ r. r.0 ≡ length self.old.bench.history) }
        ensures told { IfOk result (λ r. IsRecord self.old.bench.setup self.old.bench.state self.new.bench.state r.1) }
        ensures agrees { IfOk result (λ r. TellsAgreement self.old.bench.setup r.1) }
        ensures replays { Replays self.old.bench.setup self.old.bench.history self.old.bench.state }
        ensures accepted { All StagesAccepted self.old.bench.history }
        ensures pulse { IfOk result (λ r. r.1.row.pulse ≡ closes.old.amount + 1) }
        ensures ranges { IfOk result (λ r. IsPulseRow r.1.row) }
        ensures counted { OnOk result (share.new.amount ≡ share.old.amount + 1) }
        ensures closes_counted { OnOk result (closes.new.amount ≡ closes.old.amount + 1) }
        ensures parts { share.new.parts ≡ share.old.parts }
        ensures close_parts { closes.new.parts ≡ closes.old.parts }
        ensures unchanged { OnErr result (self.new.bench ≡ self.old.bench) }
        ensures uncounted { OnErr result ((share.new ≡ share.old) × (closes.new.amount ≡ closes.old.amount)) }
        ensures handed_back { IfErr result (λ e. e.0 ≡ dones) }
    {
        self.closes.audit(closes);
        let place = self.bench.history().len();
        let record = self.bench.close_pulse(alloc, dones)?;
        self.entries.add(share, 1);
        self.closes.add(closes, 1);
        Ok((place, record))
    }

    /// Forgets the open pulse, and counts the entry. The answer is the entry's place.
    pub(crate) fn abandon(&mut self, share: &mut Share<B>) -> Result<usize, CloseError>
        requires { 0 < share.old.parts }
        ensures ok { OnOk result (Advances self.old.bench Abandoned self.new.bench) }
        ensures place { IfOk result (λ place. place ≡ length self.old.bench.history) }
        ensures counted { OnOk result (share.new.amount ≡ share.old.amount + 1) }
        ensures parts { share.new.parts ≡ share.old.parts }
        ensures not_open { IfErr result (λ e. e ≡ CloseError.NotOpen) }
        ensures unchanged { OnErr result (self.new.bench ≡ self.old.bench) }
        ensures uncounted { OnErr result (share.new ≡ share.old) }
    {
        let place = self.bench.history().len();
        self.bench.abandon()?;
        self.entries.add(share, 1);
        Ok(place)
    }
}
