//! The ask of a plan: which of its writes a command makes, and with which reply it ends.

ghost use Rattle.std.specs.Prelude.{◌≡◌, false, option_map};
ghost use Rattle.core_state.specs.Asks.{writes_by, reply_by};
ghost use Rattle.core_step.specs.Asks.{going_ask, aim_of, GoesAsRequest};

use lock_db::{LockDb, LockName, Owner};
use op_law::{Plan, PlanWrite};
use plain_cat::{Mode, Reply};

/// The writes of a plan that come before its ask, or all of them where it has none or it was granted.
pub(crate) fn writes_by(plan: &Plan, tried: bool) -> &[PlanWrite]
    ensures { result.now ≡ writes_by plan.now.ask tried plan.now.writes }
{
    let all = plan.writes.items();
    let Some(ask) = &plan.ask else { return all };
    let at = ask.at as usize;
    if tried || all.len() <= at {
        return all;
    }
    &all[..at]
}

/// The reply behind those writes: that of the plan, or that of its ask where it was not granted.
pub(crate) fn reply_by(plan: &Plan, tried: bool) -> &Reply
    ensures { result.now ≡ reply_by plan.now.ask tried plan.now.reply }
{
    let Some(ask) = &plan.ask else {
        return &plan.reply;
    };
    if tried { &plan.reply } else { &ask.refused }
}

/// The same reply, of a plan that has ended.
pub(crate) fn into_reply(plan: Plan, tried: bool) -> Reply
    ensures { result ≡ reply_by plan.ask tried plan.reply }
{
    let Plan { ask, reply, .. } = plan;
    let Some(ask) = ask else { return reply };
    if tried { reply } else { ask.refused }
}

/// An ask as it is made.
#[derive(Clone, Copy)]
pub(crate) struct Aim {
    /// The number of the file.
    pub(crate) file: u32,

    /// The channel that asks, 1 to 8, or 0 for the node's file system.
    pub(crate) chan: u8,

    /// The mode, CR to EX.
    pub(crate) mode: Mode,
}

/// The ask of a plan, where it was not granted yet and would be at once. It takes no memory.
pub(crate) fn going_ask(plan: &Plan, tried: bool, locks: &LockDb, node: u8) -> Option<Aim>
    requires { tried ≡ false → GoesAsRequest locks.now node plan.now.ask }
    ensures { result ≡ option_map aim_of (going_ask locks.now node tried plan.now.ask) }
{
    let Some(ask) = &plan.ask else { return None };
    let owner = Owner {
        node,
        part: ask.chan,
    };
    if tried || !locks.would_grant(LockName::A(ask.file), owner, ask.mode) {
        return None;
    }
    Some(Aim {
        file: ask.file,
        chan: ask.chan,
        mode: ask.mode,
    })
}
