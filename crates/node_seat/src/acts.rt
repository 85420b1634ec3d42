//! A world whose nodes make events, as threads see it.

ghost use Rattle.std.specs.Prelude.{◌≡◌, ◌≤◌, ℕ, List, Option, None, OnOk, OnErr, length};
ghost use Rattle.base_words.specs.Fields.{Block};
ghost use Rattle.core_state.specs.Worlds.{Plain, IsOfWorld};
ghost use Rattle.core_state.specs.Deaths.{after_step};
ghost use Rattle.node_seat.specs.declared.views.Start.{Start};
ghost use Rattle.node_seat.specs.Keeping.{IsKept, mark_of};

use core_step::{Turn, TurnFault};
use std::alloc::Global;

/// A world whose nodes make events, as the threads see it.
pub trait Acts: Drop {
    // The world as plain data, the image's count of faults, and the image's blocks, if it tells them.
    ghost world: { Self → Plain };

    ghost faults: { Self → ℕ };

    ghost told: { Self → Option (List Block) };

    /// The number of its nodes.
    fn nodes(&self) -> u8
        ensures count { result ≡ length (world self.now).nodes }
        ensures script { result ≡ (world self.now).script.nodes }
        ensures few { result ≤ 8 };

    /// The event of a node: its turn, or the death in its place. What was kept of the world is kept, with the fault as the mark.
    fn act(&mut self, alloc: Global, node: u8) -> Result<Turn, TurnFault>
        requires { IsOfWorld (world self.old) node }
        ensures moved { OnOk result (world self.new ≡ after_step (world self.old) node) }
        ensures same { OnErr result (world self.new ≡ world self.old) }
        ensures kept { (start : Start) → IsKept start (world self.old) (faults self.old) (told self.old) None
            → IsKept start (world self.new) (faults self.new) (told self.new) (mark_of result) };
}
