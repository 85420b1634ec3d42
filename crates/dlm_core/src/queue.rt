//! The asks that wait at their masters.

ghost use Rattle.std.specs.Prelude.{◌≡◌, ◌&&◌, OnOk, position, is_some};
ghost use Rattle.lock_db.specs.Names.{is_before};
ghost use Rattle.dlm_core.specs.States.{put_before};
ghost use Rattle.dlm_core.specs.Steps.{goes_before, put_last};

use crate::holds::{is_before, lowers};
use crate::messages::Message;
use lock_db::{LockName, Mode, NoMemory, Owner};

/// An ask that its master has taken and that is not granted yet.
#[derive(Clone, Copy, Debug, PartialEq)]
pub struct Waiter {
    /// Who asks.
    pub owner: Owner,
    /// The resource.
    pub name: LockName,
    /// The mode that it waits for.
    pub mode: Mode,
    /// Whether it has a lock there, which is to be converted.
    pub converts: bool,
}

/// Who stands in front of others: whose name comes first, and on one name a conversion in front of a request.
fn goes_before(a: Waiter, b: Waiter) -> bool
    ensures { result ≡ goes_before a b }
{
    is_before(a.name, b.name) || (a.name == b.name && a.converts && !b.converts)
}

fn place(queue: &[Waiter], waiter: Waiter) -> Option<usize>
    ensures { result ≡ position (goes_before waiter) queue.now }
{
    queue.iter().position(|k| goes_before(waiter, *k))
}

#[tactic(auto, using(crate::proofs::Placing::put_some, crate::proofs::Placing::put_none))]
fn put(queue: &mut Vec<Waiter>, waiter: Waiter) -> Result<(), NoMemory>
    ensures { OnOk result (queue.new.items ≡ put_before (goes_before waiter) waiter queue.old.items) }
{
    match place(queue.as_slice(), waiter) {
        Some(i) => queue.insert(i, waiter)?,
        None => queue.push(waiter)?,
    }
    Ok(())
}

/// Puts an ask for more than its owner has behind all that it does not go before.
pub(crate) fn put_last(
    queue: &mut Vec<Waiter>,
    m: Message,
    old: Option<Mode>,
    mode: Mode,
) -> Result<(), NoMemory>
    ensures { OnOk result (queue.new.items ≡ put_last m old mode queue.old.items) }
{
    if !lowers(old, mode) {
        put(
            queue,
            Waiter {
                owner: m.owner,
                name: m.name,
                mode,
                converts: old.is_some(),
            },
        )?;
    }
    Ok(())
}
