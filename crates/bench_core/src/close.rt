//! What a closed pulse leaves of the nodes and their messages.
ghost use Rattle.std.specs.Prelude.{◌≡◌, ◌<◌, ◌≤◌, ℕ, false, length};
ghost use Rattle.bench_core.specs.State.{node_at};
ghost use Rattle.bench_core.specs.inner.Found.{found_at, AreLeft, FitsNode};

use crate::found::Found;
use crate::node::NodeSlot;
use crate::task::NodeDone;
use node_env::Mail;

impl NodeSlot {
    /// Takes the memory that a run left.
    fn take_result(&mut self, done: &NodeDone, mark: bool)
        requires { length self.old.memory ≡ length done.now.end.memory }
        ensures { self.new ≡ record { program = self.old.program; memory = done.now.end.memory; mark = mark } }
    {
        self.memory.copy_from_slice(done.memory());
        self.mark = mark;
    }

    /// Keeps the memory of a node that did not run.
    fn rest(&mut self)
        ensures { self.new ≡ record { program = self.old.program; memory = self.old.memory; mark = false } }
    {
        self.mark = false;
    }
}

/// Leaves of each of this many nodes what its result has, and of their messages what they sent. A node of which nothing
/// was found rests. `flags` tells whose programs are the clock program.
pub(crate) fn close_nodes(
    count: u32,
    nodes: &mut [NodeSlot],
    mail: &mut Mail,
    flags: &[bool],
    dones: &[NodeDone],
    found: &[Found],
)
    requires nodes { length nodes.old ≡ count }
    requires mail { length mail.old ≡ count }
    requires flags { length flags.now ≡ count }
    requires found { count ≤ length found.now }
    requires fits { (i : ℕ) → i < count → FitsNode count dones.now (node_at nodes.old i) (found_at found.now i) }
    ensures mail { length mail.new ≡ count }
    ensures left { AreLeft dones.now flags.now nodes.old found.now nodes.new mail.new count }
{
    for node in 0..count {
        let place = node as usize;
        let slot = &mut nodes[place];
        match found[place] {
            Found::At(at) => {
                let done = &dones[at];
                slot.take_result(done, flags[place]);
                mail.fill(node, done.outbox());
            }
            Found::Missing | Found::Twice => {
                slot.rest();
                mail.clear(node);
            }
        }
    }
}
