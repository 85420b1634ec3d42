//! The channels that a node has open by its answers.

ghost use Rattle.std.specs.Prelude.{◌≡◌};
ghost use Rattle.plain_rules.specs.Own.{opened_by, closed_by, switched, channels_after, close_from};

use plain_cat::{Cmd, Reply};

// The channel that a command opens, as a number from 1.
fn opened_by(cmd: &Cmd) -> Option<u8>
    ensures { result ≡ opened_by cmd.now }
{
    match cmd {
        Cmd::OpenFile { chan, .. } => Some(*chan),
        _ => None,
    }
}

// The channel that a command closes, as a number from 1.
fn closed_by(cmd: &Cmd) -> Option<u8>
    ensures { result ≡ closed_by cmd.now }
{
    match cmd {
        Cmd::CloseFile { chan } => Some(*chan),
        _ => None,
    }
}

// Notes that a channel is open, or that it is not, where the reply says so.
fn switch(channels: &mut [bool; 8], does: bool, chan: Option<u8>, value: bool)
    ensures { channels.new ≡ switched channels.old does chan value }
{
    if !does {
        return;
    }
    if let Some(chan) = chan {
        let at = chan.saturating_sub(1) as usize;
        if at < 8 {
            channels[at] = value;
        }
    }
}

// Notes what an answer opens and closes.
pub(crate) fn note(channels: &mut [bool; 8], cmd: &Cmd, reply: &Reply)
    ensures { channels.new ≡ channels_after channels.old cmd.now reply.now }
{
    let opens = matches!(reply, Reply::Opened);
    let closes = matches!(reply, Reply::Closed { .. });
    switch(channels, opens, opened_by(cmd), true);
    switch(channels, closes, closed_by(cmd), false);
}

// The close of the first channel that is open.
pub(crate) fn first_close(channels: &[bool; 8]) -> Option<Cmd>
    ensures { result ≡ close_from 1 channels.now }
{
    for at in 0..8u8 {
        if channels[at as usize] {
            return Some(Cmd::CloseFile { chan: at + 1 });
        }
    }
    None
}
