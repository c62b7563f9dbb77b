//! A node's part of a pulse.

ghost use Rattle.std.specs.Prelude.{◌≡◌, ◌↔◌, ◌<◌, IfOk, IsTrue, length};

use crate::task_lists::{ResultLists, TaskLists};
use bpf_run::RunScratch;
use bpf_verify::VerifiedProgram;
use node_env::{Env, Mail, Outbox, Shape};
use std::alloc::{AllocError, Global};
use std::marker::Model;

/// A node's run in an open pulse, with room for its result.
#[derive(Drop)]
pub struct NodeTask {
    opening: u32,
    node: u32,
    program: VerifiedProgram,
    env: Env,
    before: Vec<u8>,
    after: Vec<u8>,
    outbox: Outbox,
}

impl Model for NodeTask {
    ghost use Rattle.std.specs.Prelude.{◌≡◌, length};
    ghost use Rattle.std.specs.Coded.{codes};
    ghost use Rattle.node_env.specs.inner.Codes.{numbers_code};
    ghost use Rattle.bench_core.specs.Tasks.{Task};

    ghost Value = { Task };

    ghost coded = { Prim.hlevel (codes, numbers_code) };

    ghost view = { λ t. record {
      opening = t.opening;
      node = t.node;
      program = t.program;
      setting = t.env;
      memory = t.before.items;
    } };

    ghost invariant = { λ t. (t.after.items ≡ t.before.items) × (t.program.shape ≡ t.env.shape)
        × (length t.before.items ≡ t.env.shape.memory) × (t.outbox.nodes ≡ t.env.shape.nodes) };
}

impl NodeTask {
    ghost use Rattle.std.specs.Prelude.{◌≤◌, IsTrue};
    ghost use Rattle.bench_core.specs.Tasks.{IsAlike, IsEnd};

    /// Returns the task of a node, with these lists as room for its result.
    pub(crate) fn of(
        opening: u32,
        node: u32,
        program: &VerifiedProgram,
        env: Env,
        memory: &[u8],
        lists: ResultLists,
    ) -> Result<NodeTask, AllocError>
        requires shape { program.now.shape ≡ env.shape }
        requires memory { length memory.now ≡ env.shape.memory }
        requires lists { lists.outbox.nodes ≡ env.shape.nodes }
        ensures { IfOk result (λ t. t ≡ record {
          opening = opening;
          node = node;
          program = program.now;
          setting = env;
          memory = memory.now;
        }) }
    {
        let program = program.copy()?;
        let ResultLists {
            before,
            after,
            outbox,
        } = lists.with_memory(memory)?;
        Ok(NodeTask {
            opening,
            node,
            program,
            env,
            before,
            after,
            outbox,
        })
    }

    /// Returns false if `is_alike` is surely false: the announced counts or the coins differ. It is untrusted, and
    /// spares comparisons.
    #[inline(always)]
    pub fn may_be_alike(&self, done: &NodeDone) -> bool {
        self.env.coin() == done.env.coin() && self.program.budget() == done.program.budget()
    }

    /// Returns true only if the task has the same blind program as another node's result, and the same memory, inbox
    /// and coin.
    pub fn is_alike(&self, done: &NodeDone) -> bool
        ensures { IsTrue result → IsAlike self.now done.now }
    {
        self.program.is_blind()
            && self.before == done.before
            && self.env.sees_alike(&done.env)
            && done.program.same(&self.program)
    }

    /// Does as `run`, with a copy of the result of an equal input at another node.
    pub fn done_as(self, done: &NodeDone) -> NodeDone
        requires { IsAlike self done.now }
        ensures input { result.task ≡ self }
        ensures end { IsEnd result }
        ensures within { result.end.steps ≤ result.task.program.budget }
    {
        let NodeTask {
            opening,
            node,
            program,
            env,
            before,
            mut after,
            mut outbox,
        } = self;
        after.copy_from_slice(&done.after);
        outbox.copy_from(&done.outbox);
        NodeDone {
            opening,
            node,
            program,
            env,
            before,
            after,
            outbox,
            r0: done.r0,
            steps: done.steps,
        }
    }

    /// Runs the program on its input.
    pub fn run(self) -> NodeDone
        ensures input { result.task ≡ self }
        ensures end { IsEnd result }
        ensures within { result.end.steps ≤ result.task.program.budget }
    {
        self.run_in(&mut RunScratch::new())
    }

    /// Does as `run`, in room that is kept.
    pub fn run_in(self, room: &mut RunScratch) -> NodeDone
        ensures input { result.task ≡ self }
        ensures end { IsEnd result }
        ensures within { result.end.steps ≤ result.task.program.budget }
    {
        let NodeTask {
            opening,
            node,
            program,
            env,
            before,
            mut after,
            mut outbox,
        } = self;
        let ended = room.run(&program, &env, &mut after, &mut outbox);
        NodeDone {
            opening,
            node,
            program,
            env,
            before,
            after,
            outbox,
            r0: ended.r0,
            steps: ended.steps,
        }
    }
}

/// A node's run, done. Its type keeps that the result is that input's.
#[derive(Drop)]
pub struct NodeDone {
    opening: u32,
    node: u32,
    program: VerifiedProgram,
    env: Env,
    before: Vec<u8>,
    after: Vec<u8>,
    outbox: Outbox,
    r0: u64,
    steps: u32,
}

impl Model for NodeDone {
    ghost use Rattle.std.specs.Prelude.{◌≡◌, ◌≤◌, length};
    ghost use Rattle.std.specs.Coded.{codes};
    ghost use Rattle.node_env.specs.inner.Codes.{numbers_code};
    ghost use Rattle.bpf_machine.specs.Run.{CompleteRun};
    ghost use Rattle.bench_core.specs.Tasks.{Done};

    ghost Value = { Done };

    ghost coded = { Prim.hlevel (codes, numbers_code) };

    ghost view = { λ d. record {
      task = record {
        opening = d.opening;
        node = d.node;
        program = d.program;
        setting = d.env;
        memory = d.before.items;
      };
      end = record { steps = d.steps; memory = d.after.items; sent = d.outbox.sent; r0 = d.r0 };
    } };

    ghost invariant = { λ d. (length d.after.items ≡ length d.before.items) × (d.outbox.nodes ≡ d.env.shape.nodes)
        × CompleteRun d.program.program d.env d.before.items
        (record { steps = d.steps; memory = d.after.items; sent = d.outbox.sent; r0 = d.r0 })
        × (d.steps ≤ d.program.budget) };
}

impl NodeDone {
    ghost use Rattle.node_env.specs.Env.{inbox_of};
    ghost use Rattle.bench_core.specs.Tasks.{IsEnd};

    pub(crate) fn node(&self) -> u32
        ensures value { result ≡ self.now.task.node }
        ensures end { IsEnd self.now }
    {
        self.node
    }

    /// Returns the memory after the run.
    pub(crate) fn memory(&self) -> &[u8]
        ensures value { result.now ≡ self.now.end.memory }
        ensures length { length result.now ≡ length self.now.task.memory }
    {
        &self.after
    }

    /// Returns what the run sent.
    pub(crate) fn outbox(&self) -> &Outbox
        ensures sent { result.now.sent ≡ self.now.end.sent }
        ensures nodes { result.now.nodes ≡ self.now.task.setting.shape.nodes }
    {
        &self.outbox
    }

    /// Returns the coin that the run got.
    #[inline(always)]
    pub(crate) fn coin(&self) -> u32 {
        self.env.coin()
    }

    /// Returns true only if a node with this memory, which sees this, gets what the run got, but for its own number.
    #[inline(always)]
    pub(crate) fn is_seen_with(&self, memory: &[u8], env: &Env) -> bool
        ensures memory { IsTrue result → self.now.task.memory ≡ memory.now }
        ensures setting { IsTrue result → env.now ≡ record self.now.task.setting { id = env.now.id } }
    {
        self.before.as_slice() == memory && env.sees_alike(&self.env)
    }

    /// Returns how many instructions the run took.
    pub(crate) fn steps(&self) -> u32
        ensures { result ≡ self.now.end.steps }
    {
        self.steps
    }

    /// Returns its lists, if it is no longer wanted.
    pub(crate) fn into_lists(self, alloc: Global) -> TaskLists {
        let NodeDone {
            env,
            before,
            after,
            outbox,
            ..
        } = self;
        TaskLists {
            inbox: env.into_inbox_room(alloc),
            results: ResultLists {
                before,
                after,
                outbox,
            },
        }
    }

    /// Returns true if its input is that of its node in an opening of this number.
    pub(crate) fn is_of(
        &self,
        opening: u32,
        program: &VerifiedProgram,
        shape: Shape,
        mail: &Mail,
        coin: u32,
        memory: &[u8],
    ) -> bool
        requires node { self.now.task.node < length mail.now }
        requires mail { length mail.now ≡ shape.nodes }
        ensures { IsTrue result ↔ (self.now.task ≡ record {
          opening = opening;
          node = self.now.task.node;
          program = program.now;
          setting = record {
            shape = shape;
            id = self.now.task.node;
            inbox = inbox_of self.now.task.node mail.now;
            coin = coin;
          };
          memory = memory.now;
        }) }
    {
        self.opening == opening
            && self.program.same(program)
            && self.env.sees(shape, self.node, mail, coin)
            && self.before.as_slice() == memory
    }
}
