//! The lists of a task, which a task of a later pulse takes over.
ghost use Rattle.std.specs.Prelude.{◌≡◌, IfOk, OnOk};

use crate::task::NodeDone;
use node_env::{InboxRoom, Outbox, Shape};
use std::alloc::{AllocError, Global};

/// The lists that a task and its result have.
#[derive(Drop)]
pub(crate) struct TaskLists {
    pub(crate) inbox: InboxRoom,
    pub(crate) results: ResultLists,
}

/// The memory before and after the run, and what is sent.
#[derive(Drop)]
pub(crate) struct ResultLists {
    pub(crate) before: Vec<u8>,
    pub(crate) after: Vec<u8>,
    pub(crate) outbox: Outbox,
}

impl TaskLists {
    /// Returns new lists.
    fn new(alloc: Global, shape: Shape) -> Result<TaskLists, AllocError>
        ensures { IfOk result (λ lists. lists.results.outbox.nodes ≡ shape.nodes) }
    {
        let outbox = Outbox::new(alloc, shape)?;
        Ok(TaskLists {
            inbox: InboxRoom::new(alloc),
            results: ResultLists {
                before: Vec::new(alloc),
                after: Vec::new(alloc),
                outbox,
            },
        })
    }

    /// Returns those of an earlier result that is no longer wanted, if there is one for this many nodes, otherwise new
    /// ones.
    pub(crate) fn of(
        alloc: Global,
        shape: Shape,
        earlier: Option<NodeDone>,
    ) -> Result<TaskLists, AllocError>
        ensures { IfOk result (λ lists. lists.results.outbox.nodes ≡ shape.nodes) }
    {
        let Some(done) = earlier else {
            return TaskLists::new(alloc, shape);
        };
        let lists = done.into_lists(alloc);
        if lists.results.outbox.nodes() == shape.nodes() {
            Ok(lists)
        } else {
            TaskLists::new(alloc, shape)
        }
    }
}

impl ResultLists {
    /// Returns lists with this memory before the run, and room for the one after it.
    pub(crate) fn with_memory(self, memory: &[u8]) -> Result<ResultLists, AllocError>
        ensures before { IfOk result (λ lists. lists.before.items ≡ memory.now) }
        ensures after { IfOk result (λ lists. lists.after.items ≡ memory.now) }
        ensures outbox { IfOk result (λ lists. lists.outbox ≡ self.outbox) }
    {
        let ResultLists {
            mut before,
            mut after,
            outbox,
        } = self;
        refill(&mut before, memory)?;
        refill(&mut after, memory)?;
        Ok(ResultLists {
            before,
            after,
            outbox,
        })
    }
}

/// Puts these bytes in the place of a list's own.
fn refill(list: &mut Vec<u8>, bytes: &[u8]) -> Result<(), AllocError>
    ensures { OnOk result (list.new.items ≡ bytes.now) }
{
    list.clear();
    list.extend_from_slice(bytes)
}
