//! A command alone on the blocks of a volume, where each of its needs is met at once.

ghost use Rattle.std.specs.Prelude.{◌<◌, length, IfOk, OnOk};
ghost use Rattle.vol_faults.specs.Conditions.{IsSize};
ghost use Rattle.op_law.specs.Needs.{need_of, IsNext};
ghost use Rattle.op_law.specs.Going.{IsLookAt};
ghost use Rattle.rows_ops.specs.Alone.{IsSeenAlone, IsMet, BeginsAlone, EndsAlone};
ghost use Rattle.op_law.specs.Laws.{Lawful};

use base_words::Block;
use lock_db::LockName;
use op_law::{Need, Operation, Plan, Seen, SeenBlocks, SeenLocks};
use plain_cat::{Clusters, Mode, NoMemory};
use plain_rules::is_accounted;
use std::alloc::Global;
use vol_parts::blocks_are_whole;
use vol_spell::{geometry, read_volume};

// What a command has seen when it has seen nothing, or none where the blocks have a fatal finding, or their quotas are not in
// order.
fn begin<O: Operation>(alloc: Global, op: &O, blocks: &[Block]) -> Result<Option<Seen>, NoMemory>
    requires lawful { Lawful (O.cmd_is op.now) }
    requires size { IsSize (length blocks.now) }
    ensures { IfOk result (BeginsAlone (O.cmd_is op.now) blocks.now) }
{
    let Some(cat) = read_volume(alloc, blocks)? else {
        return Ok(None);
    };
    if !is_accounted(&cat) {
        return Ok(None);
    }
    blocks_are_whole(blocks);
    Ok(Some(Seen {
        geometry: geometry(blocks),
        channel: None,
        locks: SeenLocks::new(alloc),
        blocks: SeenBlocks::new(alloc),
        clusters: Clusters::new(alloc),
        number: None,
        short: None,
    }))
}

// The lock is granted.
fn lock<O: Operation>(
    op: &O,
    blocks: &[Block],
    seen: &mut Seen,
    name: LockName,
    mode: Mode,
) -> Result<(), NoMemory>
    requires lawful { Lawful (O.cmd_is op.now) }
    requires alone { IsSeenAlone (O.cmd_is op.now) blocks.now seen.old }
    requires need { IsNext (O.cmd_is op.now) seen.old (Need.Lock name mode) }
    ensures { OnOk result (IsMet (O.cmd_is op.now) blocks.now seen.old seen.new) }
{
    seen.locks.push((name, mode))?;
    Ok(())
}

// The block of an LBN is looked at.
fn look<O: Operation>(op: &O, blocks: &[Block], seen: &mut Seen, lbn: u32) -> Result<(), NoMemory>
    requires lawful { Lawful (O.cmd_is op.now) }
    requires alone { IsSeenAlone (O.cmd_is op.now) blocks.now seen.old }
    requires need { IsLookAt lbn (need_of (O.cmd_is op.now) seen.old) }
    requires within { lbn < length blocks.now }
    ensures { OnOk result (IsMet (O.cmd_is op.now) blocks.now seen.old seen.new) }
{
    seen.blocks.push((lbn, blocks[lbn as usize]))?;
    Ok(())
}

/// What a command sees on these blocks until it makes its plan, and the plan. The blocks are 64 to 65,536, no channel has
/// anything open, and no space is given. It is none exactly where they have a fatal finding, where the owner of a file has no
/// quota row or the usage of a quota row is not what its owner's files cost, or up to 1,000,000 blocks more, and where the
/// command comes to a search for space. An error says that memory ran out.
pub fn run_alone<O: Operation>(
    alloc: Global,
    op: &O,
    blocks: &[Block],
) -> Result<Option<(Seen, Plan)>, NoMemory>
    requires lawful { Lawful (O.cmd_is op.now) }
    requires size { IsSize (length blocks.now) }
    ensures { IfOk result (EndsAlone (O.cmd_is op.now) blocks.now) }
{
    let Some(mut seen) = begin(alloc, op, blocks)? else {
        return Ok(None);
    };
    // at most 19 locks and 70 blocks, and the plan
    for _ in 0..90u32 {
        match op.next(alloc, &seen)? {
            Need::Lock(name, mode) => lock(op, blocks, &mut seen, name, mode)?,
            Need::Block(_, lbn) => look(op, blocks, &mut seen, lbn)?,
            Need::Bare(lbn) => look(op, blocks, &mut seen, lbn)?,
            Need::Space { .. } => return Ok(None),
            Need::Ready(plan) => return Ok(Some((seen, plan))),
        }
    }
    unreachable!()
}
