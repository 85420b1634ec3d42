//! What READ needs next.

ghost use Rattle.std.specs.Prelude.{◌≡◌, [], IfOk};
ghost use Rattle.plain_cat.specs.declared.reply.Reply.TheVariants as reply;
ghost use Rattle.vol_parts.specs.Parts.{IsGeometry};
ghost use Rattle.op_law.specs.Behind.{goes_on_by};
ghost use Rattle.op_law.specs.Channels.{read_in, read_events};
ghost use Rattle.op_law.specs.Events.{next_of, space_of};
ghost use Rattle.op_law.specs.Readable.{HeadIsInside};
ghost use Rattle.op_law.specs.Rows.{answered};
ghost use Rattle.op_steps.specs.Seeing.{file_seen, IsReadable};
ghost use Rattle.op_data.specs.Seeing.{read_file, IsFollowed, HeadIsFollowed};

use crate::seeing::{Opened, bare_seen, file_place, is_outside, open_seen};
use crate::sizing::is_past_mark;
use base_words::{Block, zeros};
use op_law::{Chan, Looked, Need, NoMemory, Rest, Seen, answered, refused};
use op_steps::{Chained, FileSeen, part_seen};
use plain_cat::{ByteBlock, Mode, Refusal, Reply};
use std::alloc::Global;

// Nothing more is needed: the bytes of a block are the answer.
fn read(alloc: Global, block: &Block) -> Result<Need, NoMemory>
    ensures { IfOk result (λ need. need ≡ answered (reply.Bytes block.now)) }
{
    let bytes = ByteBlock::new(alloc, block)?;
    Ok(answered(alloc, Reply::Bytes(bytes)))
}

// Behind the headers of the file up to that which lists the block.
fn read_in(
    alloc: Global,
    seen: &Seen,
    f: &FileSeen<'_>,
    vbn: u32,
    rest: Rest<'_>,
) -> Result<Need, NoMemory>
    requires { IsReadable f.now }
    ensures { IfOk result (λ need. need ≡ goes_on_by (read_in vbn (file_seen seen.now.geometry f.now)) rest.entry (space_of seen.now)) }
{
    let g = &seen.geometry;
    if is_past_mark(g, f, vbn) {
        return read(alloc, &zeros());
    }
    match bare_seen(file_place(g, f, vbn), rest) {
        Looked::Next(need) => Ok(need),
        Looked::Seen(block, _) => read(alloc, block),
    }
}

// Behind the first header of the file.
fn within(
    alloc: Global,
    seen: &Seen,
    f: &FileSeen<'_>,
    vbn: u32,
    rest: Rest<'_>,
) -> Result<Need, NoMemory>
    requires geometry { IsGeometry seen.now.geometry }
    requires alone { f.now.rest.now ≡ [] }
    requires readable { IsReadable f.now }
    requires followed { IsFollowed seen.now.geometry vbn f.now.fields f.now.head.now rest.blocks.now }
    ensures { IfOk result (λ need. need ≡ goes_on_by (read_file seen.now.geometry vbn (file_seen seen.now.geometry f.now)) rest.entry (space_of seen.now)) }
{
    let g = &seen.geometry;
    if is_outside(g, f, vbn) {
        return Ok(refused(alloc, Refusal::EndOfFile));
    }
    match part_seen(g, Mode::PR, vbn, f, rest) {
        Chained::Next(need) => Ok(need),
        Chained::File(part, behind) => read_in(alloc, seen, &part, vbn, behind),
    }
}

/// What a READ needs next. Only its answer takes memory, for the bytes.
#[tactic(auto, unfolding(op_law::specs::Channels::read_events))]
pub(crate) fn read_next(alloc: Global, vbn: u32, seen: &Seen) -> Result<Need, NoMemory>
    requires geometry { IsGeometry seen.now.geometry }
    requires inside { HeadIsInside seen.now.blocks }
    requires followed { HeadIsFollowed seen.now.geometry vbn seen.now.blocks }
    ensures { IfOk result (λ need. need ≡ next_of (read_events seen.now.geometry seen.now.channel vbn) seen.now) }
{
    match seen.channel {
        None => Ok(refused(alloc, Refusal::NotOpen)),
        Some(Chan { file, .. }) => match open_seen(
            alloc,
            &seen.geometry,
            file,
            Mode::PR,
            seen.all(),
        ) {
            Opened::Next(need) => Ok(need),
            Opened::File(f, rest) => within(alloc, seen, &f, vbn, rest),
        },
    }
}
