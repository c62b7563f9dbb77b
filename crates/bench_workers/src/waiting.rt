//! Tasks that wait at a gate.
ghost use Rattle.std.specs.Prelude.{◌≡◌, true, IsSome, IfSome, length};

use crate::gate::Gate;
use bench_core::NodeTask;
use std::marker::Model;

/// The tasks of a worker, which has them once its gate has let it in. So none is run before.
#[derive(Drop)]
pub(crate) struct Waiting {
    tasks: Vec<NodeTask>,
}

impl Model for Waiting {
    ghost use Rattle.std.specs.Prelude.{List};
    ghost use Rattle.std.specs.Coded.{codes};
    ghost use Rattle.node_env.specs.inner.Codes.{numbers_code};
    ghost use Rattle.bench_core.specs.Tasks.{Task};

    ghost Value = { List Task };

    ghost coded = { Prim.hlevel (codes, numbers_code) };

    ghost view = { λ w. w.tasks.items };
}

impl Waiting {
    pub(crate) fn of(tasks: Vec<NodeTask>) -> Waiting
        ensures { result ≡ tasks.items }
    {
        Waiting { tasks }
    }

    /// Returns how many tasks there are.
    pub(crate) fn count(&self) -> usize
        ensures { result ≡ length self.now }
    {
        self.tasks.len()
    }

    /// Returns the tasks, where the gate lets the worker in.
    pub(crate) fn enter<G: Gate>(self, gate: &G, worker: u32) -> Option<Vec<NodeTask>>
        ensures open { G.always gate.now ≡ true → IsSome result }
        ensures let_in { IsSome result → G.lets_in gate.now worker ≡ true }
        ensures tasks { IfSome result (λ tasks. tasks.items ≡ self) }
    {
        let Waiting { tasks } = self;
        if gate.enter(worker) {
            Some(tasks)
        } else {
            None
        }
    }
}
