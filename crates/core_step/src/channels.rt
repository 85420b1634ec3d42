//! What the channels of a node have open.

ghost use Rattle.std.specs.Prelude.{◌≡◌, ◌-◌, slice_set};
ghost use Rattle.op_law.specs.Knows.{channel_of};
ghost use Rattle.core_state.specs.Channels.{opened, channel_seen, opens_then, closed_off};
ghost use Rattle.core_step.specs.Giving.{MayCloseOff};

use lock_db::{LockDb, LockName, Owner};
use op_law::Chan;
use plain_cat::{Cmd, Reply};

// The channel that a command names.
fn channel_of(cmd: &Cmd) -> Option<u8>
    ensures { result ≡ channel_of cmd.now }
{
    match cmd {
        Cmd::OpenFile { chan, .. } => Some(*chan),
        Cmd::CloseFile { chan } => Some(*chan),
        Cmd::ReadBlock { chan, .. } => Some(*chan),
        Cmd::WriteBlock { chan, .. } => Some(*chan),
        _ => None,
    }
}

// What a channel has open, of channels from 1.
fn opened(opens: &[Option<Chan>], chan: u8) -> Option<Chan>
    ensures { result ≡ opened opens.now chan }
{
    let at = chan.saturating_sub(1) as usize;
    if opens.len() <= at {
        return None;
    }
    opens[at]
}

/// What the channel that a command names has open.
pub(crate) fn channel_seen(opens: &[Option<Chan>], cmd: &Cmd) -> Option<Chan>
    ensures { result ≡ channel_seen opens.now cmd.now }
{
    opened(opens, channel_of(cmd)?)
}

// A channel has this open now, of channels from 1.
fn keep_open(opens: &mut [Option<Chan>; 8], chan: u8, now: Option<Chan>)
    ensures { opens.new ≡ slice_set opens.old (chan - 1) now }
{
    let at = chan.saturating_sub(1) as usize;
    if at < 8 {
        opens[at] = now;
    }
}

/// What a node's channels have open after a reply to its command.
pub(crate) fn open_and_close(opens: &mut [Option<Chan>; 8], cmd: &Cmd, reply: &Reply)
    ensures { opens.new ≡ opens_then opens.old cmd.now reply.now }
{
    match cmd {
        Cmd::OpenFile { chan, file, mode } => {
            if matches!(reply, Reply::Opened) {
                let open = Chan {
                    file: *file,
                    mode: *mode,
                };
                keep_open(opens, *chan, Some(open));
            }
        }
        Cmd::CloseFile { chan } => {
            if matches!(reply, Reply::Closed { .. }) {
                keep_open(opens, *chan, None);
            }
        }
        _ => {}
    }
}

/// With the reply of a CLOSE that has closed its channel, which had this open, the channel gives its lock back, with zeros. It takes
/// no memory.
pub(crate) fn close_off(locks: &mut LockDb, node: u8, had: Option<Chan>, cmd: &Cmd, reply: &Reply)
    requires { MayCloseOff node had cmd.now reply.now locks.old }
    ensures { locks.new ≡ closed_off node had cmd.now reply.now locks.old }
{
    let Cmd::CloseFile { chan } = cmd else { return };
    if !matches!(reply, Reply::Closed { .. }) {
        return;
    }
    let Some(open) = had else { return };
    let owner = Owner { node, part: *chan };
    locks.release(LockName::A(open.file.num), owner, [0; 16]);
}
