//! The own blocks of a directory, which a DELETE looks at before the file goes.

ghost use Rattle.std.specs.Prelude.{◌≡◌, IfOk};
ghost use Rattle.op_law.specs.Events.{Events, Space as Given, following};
ghost use Rattle.op_law.specs.Behind.{blocks_alone, FollowsBy};
ghost use Rattle.op_law.specs.Removing.{if_empty};
ghost use Rattle.op_steps.specs.Seeing.{file_seen, IsReadable};
ghost use Rattle.op_delete.specs.Looking.{IsWholeDir, without_entries, behind_empty};

use base_words::Block;
use lock_db::LockName;
use op_law::{Listed, Need, NoMemory, Rest, blocks_seen, entries_seen, refused};
use op_steps::{FileSeen, file_lbn};
use plain_cat::Refusal;
use std::alloc::Global;
use vol_parts::Geometry;

/// A file that is no directory with entries.
#[derive(Drop)]
pub(crate) enum Empty<'a> {
    /// What was seen behind its blocks.
    Shown(Rest<'a>),

    /// It has entries, or they are not all seen yet: what the command needs next.
    Next(Need),
}

// The blocks of a directory show no entry. Once a lock was seen behind them that is known.
fn entries_none<'a>(
    alloc: Global,
    blocks: &[(u32, Block)],
    rest: Rest<'a>,
) -> Result<Empty<'a>, NoMemory>
    ensures { IfOk result (λ r. (next : Events) (given : Given) → FollowsBy (without_entries (blocks_alone blocks.now) next) rest.entry given
        → following (without_entries (blocks_alone blocks.now) next) rest.entry.locks.now rest.entry.blocks.now given ≡ behind_empty next given r) }
{
    if !rest.locks.is_empty() {
        return Ok(Empty::Shown(rest));
    }
    let entries = entries_seen(alloc, blocks)?;
    if entries.items().is_empty() {
        Ok(Empty::Shown(rest))
    } else {
        Ok(Empty::Next(refused(alloc, Refusal::DirNotEmpty)))
    }
}

/// Whether a file is no directory, or one whose blocks show no entry. An error says that memory ran out.
pub(crate) fn empty_seen<'a>(
    alloc: Global,
    g: &Geometry,
    f: &FileSeen<'_>,
    rest: Rest<'a>,
) -> Result<Empty<'a>, NoMemory>
    requires readable { IsReadable f.now }
    requires whole { IsWholeDir f.now }
    ensures { IfOk result (λ r. (next : Events) (given : Given) → FollowsBy (if_empty (file_seen g.now f.now) next) rest.entry given
        → following (if_empty (file_seen g.now f.now) next) rest.entry.locks.now rest.entry.blocks.now given ≡ behind_empty next given r) }
{
    if !f.fields.dir {
        return Ok(Empty::Shown(rest));
    }
    let unseen = file_lbn(f, rest.blocks.len());
    match blocks_seen(LockName::S(f.num), f.fields.blocks as usize, unseen, rest) {
        Listed::Next(need) => Ok(Empty::Next(need)),
        Listed::All(blocks, behind) => entries_none(alloc, blocks, behind),
    }
}
