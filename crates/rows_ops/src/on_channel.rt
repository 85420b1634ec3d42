//! A command of channel 1 of node 1, where that channel has a file open and nobody else has anything open, on the blocks of a volume.
//! Each of its needs is met at once.

ghost use Rattle.std.specs.Prelude.{◌≡◌, ◌<◌, true, nat_lt, length, Some, IfOk, OnOk, IfSome};
ghost use Rattle.plain_cat.specs.Modes.{rank};
ghost use Rattle.plain_rules.specs.Lookups.{in_use};
ghost use Rattle.vol_faults.specs.Conditions.{IsSize};
ghost use Rattle.op_law.specs.Knows.{channel_of};
ghost use Rattle.plain_rules.specs.Opens.{is_plain_file};
ghost use Rattle.op_law.specs.Needs.{need_of, IsNext};
ghost use Rattle.op_law.specs.Going.{IsLookAt};
ghost use Rattle.rows_ops.specs.Alone.{IsSeenOpen};
ghost use Rattle.op_law.specs.Laws.{Lawful};

use base_words::Block;
use lock_db::LockName;
use op_law::{Chan, Need, Operation, Plan, Seen, SeenBlocks, SeenLocks};
use plain_cat::{Cat, Clusters, Fid, Mode, NoMemory};
use plain_rules::{in_use, is_accounted};
use std::alloc::Global;
use vol_parts::blocks_are_whole;
use vol_spell::{geometry, read_volume};

// Whether a file is in use, and no directory.
fn is_plain_file(cat: &Cat, file: Fid) -> bool
    ensures { result ≡ is_plain_file (in_use cat.now file) }
{
    match in_use(cat, file) {
        Some(f) => !f.dir,
        None => false,
    }
}

// What it has seen when it has seen nothing, or none where the blocks have a fatal finding, their quotas are not in order, or the
// file cannot be open.
fn begin<O: Operation>(
    alloc: Global,
    op: &O,
    blocks: &[Block],
    channel: Chan,
) -> Result<Option<Seen>, NoMemory>
    requires lawful { Lawful (O.cmd_is op.now) }
    requires of { channel_of (O.cmd_is op.now) ≡ Some 1 }
    requires size { IsSize (length blocks.now) }
    requires mode { nat_lt 0 (rank channel.mode) ≡ true }
    ensures { IfOk result (λ s. IfSome s (λ seen. IsSeenOpen (O.cmd_is op.now) blocks.now seen)) }
{
    let Some(cat) = read_volume(alloc, blocks)? else {
        return Ok(None);
    };
    if !is_accounted(&cat) {
        return Ok(None);
    }
    if channel.file.num <= 11 {
        return Ok(None);
    }
    if !is_plain_file(&cat, channel.file) {
        return Ok(None);
    }
    blocks_are_whole(blocks);
    Ok(Some(Seen {
        geometry: geometry(blocks),
        channel: Some(channel),
        locks: SeenLocks::new(alloc),
        blocks: SeenBlocks::new(alloc),
        clusters: Clusters::new(alloc),
        number: None,
        short: None,
    }))
}

// The lock is granted.
fn lock<O: Operation>(
    op: &O,
    blocks: &[Block],
    seen: &mut Seen,
    name: LockName,
    mode: Mode,
) -> Result<(), NoMemory>
    requires lawful { Lawful (O.cmd_is op.now) }
    requires fits { IsSeenOpen (O.cmd_is op.now) blocks.now seen.old }
    requires need { IsNext (O.cmd_is op.now) seen.old (Need.Lock name mode) }
    ensures { OnOk result (IsSeenOpen (O.cmd_is op.now) blocks.now seen.new) }
{
    seen.locks.push((name, mode))?;
    Ok(())
}

// The block of an LBN is looked at.
fn look<O: Operation>(op: &O, blocks: &[Block], seen: &mut Seen, lbn: u32) -> Result<(), NoMemory>
    requires lawful { Lawful (O.cmd_is op.now) }
    requires fits { IsSeenOpen (O.cmd_is op.now) blocks.now seen.old }
    requires need { IsLookAt lbn (need_of (O.cmd_is op.now) seen.old) }
    requires within { lbn < length blocks.now }
    ensures { OnOk result (IsSeenOpen (O.cmd_is op.now) blocks.now seen.new) }
{
    seen.blocks.push((lbn, blocks[lbn as usize]))?;
    Ok(())
}

/// What the command sees until it makes its plan, and the plan, if it makes one.
pub fn run_on_channel<O: Operation>(
    alloc: Global,
    op: &O,
    blocks: &[Block],
    channel: Chan,
) -> Result<Option<(Seen, Plan)>, NoMemory>
    requires lawful { Lawful (O.cmd_is op.now) }
    requires of { channel_of (O.cmd_is op.now) ≡ Some 1 }
    requires mode { nat_lt 0 (rank channel.mode) ≡ true }
    requires size { IsSize (length blocks.now) }
{
    let Some(mut seen) = begin(alloc, op, blocks, channel)? else {
        return Ok(None);
    };
    // at most 19 locks and 70 blocks, and the plan
    for _ in 0..90u32 {
        match op.next(alloc, &seen)? {
            Need::Lock(name, mode) => lock(op, blocks, &mut seen, name, mode)?,
            Need::Block(_, lbn) if (lbn as usize) < blocks.len() => look(
                op, blocks, &mut seen, lbn,
            )?,
            Need::Bare(lbn) if (lbn as usize) < blocks.len() => look(op, blocks, &mut seen, lbn)?,
            Need::Block(_, _) | Need::Bare(_) => return Ok(None),
            Need::Space { .. } => return Ok(None),
            Need::Ready(plan) => return Ok(Some((seen, plan))),
        }
    }
    Ok(None)
}
