//! The bench that loaders and the engine share.
ghost use Rattle.std.specs.Prelude.{◌≡◌, ◌+◌, ◌<◌, ◌≤◌, ℕ, List, [], length, vec_len, All, None, Some, IfOk, IfErr, OnOk, OnErr};
ghost use Rattle.std.specs.List.{sum_by};
ghost use Rattle.bench_core.specs.declared.actor.Actor.TheVariants.{Loader, Engine};
ghost use Rattle.bench_core.specs.State.{Load, Unload, Corrupt, IsChange, AreCoins};
ghost use Rattle.bench_core.specs.Replay.{Staged, Opened, Closed, Abandoned, StagesAccepted, rows_of};
ghost use Rattle.bench_core.specs.Views.{change_of, setup_of, setup_with};
ghost use Rattle.bench_shared.specs.Passes.{AreNew, OneMore};
ghost use Rattle.bench_shared.specs.Ends.{placed_by, EachOnce, HasReplay};
ghost use Rattle.bench_shared.specs.Plans.{HandsOut, IsPlanRefusal, IsPlanOpenRefusal};
ghost use Rattle.bench_shared.specs.Told.{OpenedLast, TellsClose, TellsAgreement};

use crate::board::{Board, EngineSeat, WatchPass};
use crate::finish::{Finished, are_all};
use crate::locked_bench::LockedBench;
use crate::passes::{EnginePass, LoaderPass, Receipt};
use bench_core::{
    Actor, Bench, Change, ClockProgram, CloseError, Entry, NodeDone, NodeTask, OpenError,
    PulseRecord, StageError, are_coins, stage_error,
};
use bpf_insn::Program;
use bpf_verify::VerifiedProgram;
use clock_nodes::{ClockRule, dolev_welch};
use node_env::Shape;
use std::alloc::{AllocError, Global};
use std::marker::{Model, PhantomData};
use std::sync::ledger::{Blank, Ledger, Share};
use std::sync::{Mutex, Wait};

/// The most loaders of a bench. It has one at least.
pub const MAX_LOADERS: u32 = 8;

/// The most watchers of a bench.
pub const MAX_WATCHERS: u32 = 8;

/// A bench under a lock. Each change, opening, close and abandon is one entry of its history, put there under the lock.
/// `B` and `C` name the bench, so that no pass of another one fits.
#[derive(Drop)]
pub struct SharedBench<B: Ledger, C: Ledger> {
    round: Mutex<LockedBench<B, C>>,
    shape: Shape,
    rule: ClockRule,
    clock: ClockProgram,
    loaders: u32,
}

impl<B: Ledger, C: Ledger> Model for SharedBench<B, C> {
    ghost use Rattle.bench_core.specs.Views.{setup_with};
    ghost use Rattle.bench_shared.specs.Plans.{Plan};

    ghost Value = { Plan };

    ghost view = { λ b. record { setup = setup_with b.shape b.rule b.clock; loaders = b.loaders } };
}

/// Returns one pass for each loader, each with a part of the ledger.
fn loader_passes<B: Ledger, C: Ledger>(
    alloc: Global,
    share: &mut Share<B>,
    count: u32,
) -> Result<Vec<LoaderPass<B, C>>, AllocError>
    requires parts { count < share.old.parts }
    requires amount { share.old.amount ≡ 0 }
    ensures left { OnOk result (share.new.parts + count ≡ share.old.parts) }
    ensures amount { OnOk result (share.new.amount ≡ 0) }
    ensures len { IfOk result (λ passes. vec_len passes ≡ count) }
    ensures each { IfOk result (λ passes. AreNew passes.items) }
{
    let mut passes = Vec::new(alloc);
    for number in 0..count {
        passes.push(LoaderPass {
            number,
            share: share.split_off(1, 0),
            receipts: Vec::new(alloc),
            closes: PhantomData,
        })?;
    }
    Ok(passes)
}

/// Returns one pass for each watcher.
fn watch_passes(
    alloc: Global,
    board: &Board,
    seat: &mut EngineSeat,
    count: u32,
) -> Result<Vec<WatchPass>, AllocError>
    requires { seat.old.board ≡ board.now }
    ensures same { seat.new ≡ seat.old }
    ensures len { IfOk result (λ passes. vec_len passes ≡ count) }
    ensures board { IfOk result (λ passes. All (λ p. p.board ≡ board.now) passes.items) }
    ensures rows { IfOk result (λ passes. All (λ p. p.rows ≡ []) passes.items) }
{
    let mut passes = Vec::new(alloc);
    for _number in 0..count {
        passes.push(board.watcher(seat))?;
    }
    Ok(passes)
}

impl<B: Ledger, C: Ledger> SharedBench<B, C> {
    /// Returns a bench without programs or entries, its board, and all of its passes. The blanks become the books of
    /// entries and of closes; a refusal uses them up.
    pub fn new(
        alloc: Global,
        entries: Blank,
        closes: Blank,
        shape: Shape,
        rule: ClockRule,
        loaders: u32,
        watchers: u32,
    ) -> Result<
        (
            SharedBench<B, C>,
            Board,
            EnginePass<B, C>,
            Vec<LoaderPass<B, C>>,
            Vec<WatchPass>,
        ),
        AllocError,
    >
        requires entries { (entries.name ≡ B.name) × (entries.parts ≡ B.parts) × (entries.parts ≡ loaders + 1) }
        requires closes { (closes.name ≡ C.name) × (closes.parts ≡ C.parts) × (closes.parts ≡ 1) }
        requires nodes { rule.nodes ≡ shape.nodes }
        requires some { 1 ≤ loaders }
        requires few { loaders ≤ MAX_LOADERS }
        requires watchers { watchers ≤ MAX_WATCHERS }
        ensures plan { IfOk result (λ r. r.0 ≡ record { setup = setup_of shape rule; loaders = loaders }) }
        ensures engine { IfOk result (λ r. r.2 ≡ record { board = r.1; receipts = []; posted = []; owed = None }) }
        ensures loaders { IfOk result (λ r. (vec_len r.3 ≡ loaders) × AreNew r.3.items) }
        ensures watchers { IfOk result (λ r. (vec_len r.4 ≡ watchers)
            × All (λ p. p.board ≡ r.1) r.4.items × All (λ p. p.rows ≡ []) r.4.items) }
    {
        let clock = dolev_welch(alloc, shape, rule)?;
        SharedBench::with_clock(
            alloc, entries, closes, shape, rule, clock, loaders, watchers,
        )
    }

    /// Does as `new`, and counts this program as the clock.
    pub fn with_clock(
        alloc: Global,
        entries: Blank,
        closes: Blank,
        shape: Shape,
        rule: ClockRule,
        clock: Program,
        loaders: u32,
        watchers: u32,
    ) -> Result<
        (
            SharedBench<B, C>,
            Board,
            EnginePass<B, C>,
            Vec<LoaderPass<B, C>>,
            Vec<WatchPass>,
        ),
        AllocError,
    >
        requires entries { (entries.name ≡ B.name) × (entries.parts ≡ B.parts) × (entries.parts ≡ loaders + 1) }
        requires closes { (closes.name ≡ C.name) × (closes.parts ≡ C.parts) × (closes.parts ≡ 1) }
        requires nodes { rule.nodes ≡ shape.nodes }
        requires some { 1 ≤ loaders }
        requires few { loaders ≤ MAX_LOADERS }
        requires watchers { watchers ≤ MAX_WATCHERS }
        ensures plan { IfOk result (λ r. r.0 ≡ record { setup = setup_with shape rule clock; loaders = loaders }) }
        ensures engine { IfOk result (λ r. r.2 ≡ record { board = r.1; receipts = []; posted = []; owed = None }) }
        ensures loaders { IfOk result (λ r. (vec_len r.3 ≡ loaders) × AreNew r.3.items) }
        ensures watchers { IfOk result (λ r. (vec_len r.4 ≡ watchers)
            × All (λ p. p.board ≡ r.1) r.4.items × All (λ p. p.rows ≡ []) r.4.items) }
    {
        let (entries, mut share) = entries.open::<B>();
        let (closes, close_share) = closes.open::<C>();
        let (board, mut seat) = Board::new(alloc)?;
        let loader_passes = loader_passes(alloc, &mut share, loaders)?;
        let watch_passes = watch_passes(alloc, &board, &mut seat, watchers)?;
        let bench = Bench::with_clock(alloc, shape, rule, clock)?;
        let clock = bench.clock_program().copy(alloc)?;
        let shared = SharedBench {
            round: Mutex::new(LockedBench::new(bench, entries, closes)),
            shape,
            rule,
            clock,
            loaders,
        };
        let engine = EnginePass {
            seat,
            share,
            closes: close_share,
            receipts: Vec::new(alloc),
            owed: None,
            is_open: false,
        };
        Ok((shared, board, engine, loader_passes, watch_passes))
    }

    /// Stages a change for the pass's loader. The receipt's place is grown before the change is staged.
    fn stage<R: Wait>(
        &self,
        rt: &R,
        alloc: Global,
        pass: &mut LoaderPass<B, C>,
        change: Change,
    ) -> Result<(), (Change, StageError)>
        ensures receipt { OnOk result
            (OneMore pass.old.receipts (Staged (Loader pass.old.number) (change_of change)) pass.new.receipts) }
        ensures number { pass.new.number ≡ pass.old.number }
        ensures fits { OnOk result (IsChange self.now.setup.shape (change_of change)) }
        ensures refusal { IfErr result (λ e. IsPlanRefusal self.now (change_of change) e.1) }
        ensures unchanged { OnErr result (pass.new ≡ pass.old) }
        ensures handed_back { IfErr result (λ e. e.0 ≡ change) }
    {
        match stage_error(self.shape, &change) {
            Some(refusal) => return Err((change, refusal)),
            None => {}
        }
        let mut round = self.round.lock(rt);
        if !round.is_of(self.shape, self.rule, &self.clock) || !round.has_room_for(&change) {
            return Err((change, StageError::HistoryFull));
        }
        let Ok(()) = pass.receipts.reserve(1) else {
            return Err((change, StageError::Memory));
        };
        let Ok(copy) = change.copy(alloc) else {
            return Err((change, StageError::Memory));
        };
        let actor = Actor::Loader(pass.number);
        let place = round.stage(actor, change, &mut pass.share)?;
        let entry = Entry::Staged {
            actor,
            change: copy,
        };
        pass.receipts.push_reserved(Receipt { place, entry });
        Ok(())
    }

    /// Stages that a node is loaded with the program.
    pub fn load<R: Wait>(
        &self,
        rt: &R,
        alloc: Global,
        pass: &mut LoaderPass<B, C>,
        node: u32,
        program: VerifiedProgram,
    ) -> Result<(), (Change, StageError)>
        ensures receipt { OnOk result
            (OneMore pass.old.receipts (Staged (Loader pass.old.number) (Load node program)) pass.new.receipts) }
        ensures number { pass.new.number ≡ pass.old.number }
        ensures fits { OnOk result (IsChange self.now.setup.shape (Load node program)) }
        ensures refusal { IfErr result (λ e. IsPlanRefusal self.now (Load node program) e.1) }
        ensures unchanged { OnErr result (pass.new ≡ pass.old) }
        ensures handed_back { IfErr result (λ e. e.0 ≡ Change.Load node program) }
    {
        self.stage(rt, alloc, pass, Change::Load { node, program })
    }

    /// Stages that a node's program is taken away.
    pub fn unload<R: Wait>(
        &self,
        rt: &R,
        alloc: Global,
        pass: &mut LoaderPass<B, C>,
        node: u32,
    ) -> Result<(), (Change, StageError)>
        ensures receipt { OnOk result
            (OneMore pass.old.receipts (Staged (Loader pass.old.number) (Unload node)) pass.new.receipts) }
        ensures number { pass.new.number ≡ pass.old.number }
        ensures fits { OnOk result (IsChange self.now.setup.shape (Unload node)) }
        ensures refusal { IfErr result (λ e. IsPlanRefusal self.now (Unload node) e.1) }
        ensures unchanged { OnErr result (pass.new ≡ pass.old) }
        ensures handed_back { IfErr result (λ e. e.0 ≡ Change.Unload node) }
    {
        self.stage(rt, alloc, pass, Change::Unload { node })
    }

    /// Stages that a node's memory becomes the image.
    pub fn corrupt<R: Wait>(
        &self,
        rt: &R,
        alloc: Global,
        pass: &mut LoaderPass<B, C>,
        node: u32,
        image: Vec<u8>,
    ) -> Result<(), (Change, StageError)>
        ensures receipt { OnOk result
            (OneMore pass.old.receipts (Staged (Loader pass.old.number) (Corrupt node image.items)) pass.new.receipts) }
        ensures number { pass.new.number ≡ pass.old.number }
        ensures fits { OnOk result (IsChange self.now.setup.shape (Corrupt node image.items)) }
        ensures refusal { IfErr result (λ e. IsPlanRefusal self.now (Corrupt node image.items) e.1) }
        ensures unchanged { OnErr result (pass.new ≡ pass.old) }
        ensures handed_back { IfErr result (λ e. e.0 ≡ Change.Corrupt node image) }
    {
        self.stage(rt, alloc, pass, Change::Corrupt { node, image })
    }

    /// Applies the staged changes, and hands out a task for each loaded node, in node order. The coins are 0 or 1, one
    /// for each node. The places of two receipts are grown, this one's and that of the pulse's end.
    pub fn open_pulse<R: Wait>(
        &self,
        rt: &R,
        alloc: Global,
        pass: &mut EnginePass<B, C>,
        coins: &[u32],
    ) -> Result<Vec<NodeTask>, OpenError>
        requires { pass.old.owed ≡ None }
        ensures receipt { OnOk result (OneMore pass.old.receipts (Opened coins.now) pass.new.receipts) }
        ensures board { pass.new.board ≡ pass.old.board }
        ensures posted { pass.new.posted ≡ pass.old.posted }
        ensures owed { pass.new.owed ≡ None }
        ensures tasks { IfOk result (λ tasks. HandsOut self.now.setup coins.now tasks.items) }
        ensures fits { OnOk result (AreCoins self.now.setup.shape coins.now) }
        ensures refusal { IfErr result (IsPlanOpenRefusal self.now coins.now) }
        ensures unchanged { OnErr result (pass.new ≡ pass.old) }
    {
        let mut round = self.round.lock(rt);
        if round.is_open() {
            return Err(OpenError::PulseOpen);
        }
        if !are_coins(self.shape, coins) {
            return Err(OpenError::BadCoins);
        }
        if !round.is_of(self.shape, self.rule, &self.clock) || !round.has_room_to_open() {
            return Err(OpenError::HistoryFull);
        }
        let Ok(()) = pass.receipts.reserve(2) else {
            return Err(OpenError::Memory);
        };
        let Ok(copy) = Vec::from_slice(alloc, coins) else {
            return Err(OpenError::Memory);
        };
        let (place, tasks) = round.open(alloc, coins, &mut pass.share)?;
        let entry = Entry::Opened { coins: copy };
        pass.receipts.push_reserved(Receipt { place, entry });
        pass.is_open = true;
        Ok(tasks)
    }

    /// Closes the pulse with the results of its tasks, in any order. The engine then owes the row to the board. What it
    /// refuses it hands back, and the pulse stays open.
    pub fn close_pulse<R: Wait>(
        &self,
        rt: &R,
        alloc: Global,
        pass: &mut EnginePass<B, C>,
        dones: Vec<NodeDone>,
    ) -> Result<PulseRecord, (Vec<NodeDone>, CloseError)>
        requires { pass.old.owed ≡ None }
        ensures receipt { IfOk result (λ r. OneMore pass.old.receipts (Closed r.row) pass.new.receipts) }
        ensures owed { IfOk result (λ r. pass.new.owed ≡ Some r.row) }
        ensures told { IfOk result (λ r. (coins : List ℕ)
            × OpenedLast pass.old.receipts coins × TellsClose self.now.setup coins r) }
        ensures agrees { IfOk result (λ r. TellsAgreement self.now.setup r) }
        ensures board { pass.new.board ≡ pass.old.board }
        ensures posted { pass.new.posted ≡ pass.old.posted }
        ensures unchanged { OnErr result (pass.new ≡ pass.old) }
        ensures handed_back { IfErr result (λ e. e.0 ≡ dones) }
    {
        if !pass.is_open {
            return Err((dones, CloseError::NotOpen));
        }
        let mut locked = self.round.lock(rt);
        let round = &mut *locked;
        if !round.is_of(self.shape, self.rule, &self.clock) || !round.has_coins_of(&pass.receipts) {
            return Err((dones, CloseError::NotOpen));
        }
        let (place, told) = round.close(alloc, dones, &mut pass.share, &mut pass.closes)?;
        let row = told.row;
        let entry = Entry::Closed { row };
        pass.receipts.push_reserved(Receipt { place, entry });
        pass.is_open = false;
        pass.owed = Some(row);
        Ok(told)
    }

    /// Forgets the open pulse. What its opening applied stays applied.
    pub fn abandon<R: Wait>(&self, rt: &R, pass: &mut EnginePass<B, C>) -> Result<(), CloseError>
        ensures receipt { OnOk result (OneMore pass.old.receipts Abandoned pass.new.receipts) }
        ensures board { pass.new.board ≡ pass.old.board }
        ensures posted { pass.new.posted ≡ pass.old.posted }
        ensures owed { pass.new.owed ≡ pass.old.owed }
        ensures not_open { IfErr result (λ e. e ≡ CloseError.NotOpen) }
        ensures unchanged { OnErr result (pass.new ≡ pass.old) }
    {
        if !pass.is_open {
            return Err(CloseError::NotOpen);
        }
        let place = self.round.lock(rt).abandon(&mut pass.share)?;
        let entry = Entry::Abandoned;
        pass.receipts.push_reserved(Receipt { place, entry });
        pass.is_open = false;
        Ok(())
    }

    /// Ends the bench, where the loaders are this bench's, each once, and the receipts of the passes are its history.
    /// Else all is handed back.
    pub fn finish(
        self,
        engine: EnginePass<B, C>,
        loaders: Vec<LoaderPass<B, C>>,
    ) -> Result<Finished, (SharedBench<B, C>, EnginePass<B, C>, Vec<LoaderPass<B, C>>)>
        requires { engine.owed ≡ None }
        ensures engine { IfOk result (λ history. placed_by Engine history ≡ engine.receipts) }
        ensures loaders { IfOk result (λ history.
            All (λ p. placed_by (Loader p.number) history ≡ p.receipts) loaders.items) }
        ensures number { OnOk result (vec_len loaders ≡ self.loaders) }
        ensures once { OnOk result (EachOnce self.loaders loaders.items) }
        ensures all { IfOk result (λ history.
            length history ≡ length engine.receipts + sum_by (λ p. length p.receipts) loaders.items) }
        ensures posted { IfOk result (λ history. rows_of history ≡ engine.posted) }
        ensures replays { IfOk result (HasReplay self.setup) }
        ensures accepted { IfOk result (All StagesAccepted) }
        ensures handed_back { IfErr result (λ r. r.0 ≡ self) }
        ensures engine_back { IfErr result (λ r. r.1 ≡ engine) }
        ensures loaders_back { IfErr result (λ r. r.2 ≡ loaders) }
    {
        let SharedBench {
            round,
            shape,
            rule,
            clock,
            loaders: count,
        } = self;
        let round = round.into_inner();
        if !round.is_of(shape, rule, &clock)
            || !are_all(round.history(), &engine, &loaders, count)
        {
            let shared = SharedBench {
                round: Mutex::new(round),
                shape,
                rule,
                clock,
                loaders: count,
            };
            return Err((shared, engine, loaders));
        }
        Ok(Finished::of(round.into_history()))
    }
}
