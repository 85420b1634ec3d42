//! Playing the events of a script.

ghost use Rattle.std.specs.Prelude.{◌≡◌, ◌≤◌, IfOk};
ghost use Rattle.dlm_core.specs.States.{start};
ghost use Rattle.dlm_run.specs.Printing.{lines_text};

use crate::printing::push_line;
use dlm_core::{BlockRule, Dlm, Event};
use plain_cat::NoMemory;
use std::alloc::Global;

/// Plays events on these nodes, one after the other, from a core without any lock. Answers the lines of all of them.
pub(crate) fn play(alloc: Global, nodes: u8, events: &[Event]) -> Result<Vec<u8>, NoMemory>
    requires { 1 ≤ nodes }
    ensures { IfOk result (λ v. v.items ≡ lines_text 1 (start BlockRule.OfAll nodes) events.now) }
{
    let mut dlm = Dlm::with_rule(alloc, BlockRule::OfAll, nodes)?;
    let mut out = Vec::new(alloc);
    let mut k = 1usize;
    for e in events {
        let told = dlm.step(alloc, e)?;
        push_line(alloc, &mut out, k, &told)?;
        k += 1;
    }
    Ok(out)
}
