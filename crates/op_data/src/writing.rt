//! What WRITE needs next, and its writes.

ghost use Rattle.std.specs.Prelude.{◌≡◌, ◌≤◌, ◌<◌, ◌+◌, ◌++◌, ◌∷◌, [], Some, length, IfOk, OnOk};
ghost use Rattle.plain_rules.specs.Answers.{is_reading};
ghost use Rattle.plain_rules.specs.Changes.{text_block};
ghost use Rattle.vol_parts.specs.Parts.{IsGeometry};
ghost use Rattle.op_law.specs.Behind.{goes_on_by};
ghost use Rattle.op_law.specs.Channels.{zero_writes, sizes_write, block_writes, write_on, write_events};
ghost use Rattle.op_law.specs.Events.{next_of, space_of};
ghost use Rattle.op_law.specs.Readable.{HeadIsInside};
ghost use Rattle.op_law.specs.SeenFiles.{file_write};
ghost use Rattle.op_steps.specs.Seeing.{file_seen, IsReadable};
ghost use Rattle.op_data.specs.Seeing.{write_file, IsFollowed, HeadIsFollowed};

use crate::seeing::{Opened, file_place, is_outside, open_seen};
use crate::sizing::{is_past_mark, written_header};
use base_words::{Block, put_bytes, zeros};
use lock_db::LockName;
use op_law::{Chan, Need, NoMemory, Numbers, Plan, PlanWrite, Rest, Seen, Writes, refused};
use op_steps::{Chained, FileSeen, part_seen, push_header};
use plain_cat::{Clusters, Mode, Name, Refusal, Reply, Stage};
use std::alloc::Global;
use vol_parts::Geometry;

// Whether a mode is one in which a file is read alone.
fn is_reading(mode: Mode) -> bool
    ensures { result ≡ is_reading mode }
{
    match mode {
        Mode::CR | Mode::PR => true,
        Mode::NL | Mode::CW | Mode::PW | Mode::EX => false,
    }
}

// A text, and zeros after it.
fn text_block(text: &Name) -> Block
    requires { length text.now ≤ 512 }
    ensures { result ≡ text_block text.now }
{
    let mut block = zeros();
    put_bytes(&mut block, 0, text.items());
    block
}

// The write of a virtual block.
fn file_write(
    alloc: Global,
    g: &Geometry,
    f: &FileSeen<'_>,
    vbn: u32,
    block: &Block,
    stage: Stage,
) -> PlanWrite
    requires { IsReadable f.now }
    ensures { result ≡ file_write (file_seen g.now f.now) vbn block.now stage }
{
    let clusters = Clusters::new(alloc);
    let numbers = Numbers::new(alloc);
    PlanWrite {
        lock: LockName::S(f.num),
        lbn: file_place(g, f, vbn),
        block: *block,
        stage,
        clusters,
        numbers,
        number: None,
    }
}

// Adds the writes of zeros from the mark to in front of a virtual block. A refusal of memory says nothing of the writes.
fn push_zeros(
    alloc: Global,
    writes: &mut Writes,
    g: &Geometry,
    f: &FileSeen<'_>,
    vbn: u32,
) -> Result<(), NoMemory>
    requires { IsReadable f.now }
    ensures { OnOk result (writes.new ≡ writes.old ++ zero_writes (file_seen g.now f.now) vbn) }
{
    let block = zeros();
    for v in f.fields.mark..vbn {
        writes.push(file_write(alloc, g, f, v, &block, Stage::Nothing))?;
    }
    Ok(())
}

// Adds the write of the header. A refusal of memory says nothing of the writes.
fn push_last_header(
    alloc: Global,
    writes: &mut Writes,
    g: &Geometry,
    f: &FileSeen<'_>,
    vbn: u32,
) -> Result<(), NoMemory>
    requires geometry { IsGeometry g.now }
    requires number { f.now.num ≤ g.now.files }
    requires vbn { vbn ≤ 65536 }
    ensures { OnOk result (writes.new ≡ writes.old ++ sizes_write g.now (file_seen g.now f.now) vbn ∷ []) }
{
    let block = written_header(g, f, vbn);
    let none = Clusters::new(alloc);
    push_header(alloc, writes, g, f.num, &block, Stage::Done, none, None)
}

// The writes of a virtual block. An error says that memory ran out.
#[tactic(auto, unfolding(op_law::specs::Channels::block_writes))]
fn block_writes(
    alloc: Global,
    g: &Geometry,
    f: &FileSeen<'_>,
    vbn: u32,
    block: &Block,
) -> Result<Writes, NoMemory>
    requires geometry { IsGeometry g.now }
    requires number { f.now.num ≤ g.now.files }
    requires readable { IsReadable f.now }
    requires vbn { vbn ≤ 65536 }
    ensures { IfOk result (λ ws. ws ≡ block_writes g.now (file_seen g.now f.now) vbn block.now) }
{
    let mut writes = Writes::new(alloc);
    if is_past_mark(g, f, vbn) {
        push_zeros(alloc, &mut writes, g, f, vbn)?;
        writes.push(file_write(alloc, g, f, vbn, block, Stage::Nothing))?;
        push_last_header(alloc, &mut writes, g, f, vbn)?;
    } else if f.fields.end <= vbn {
        writes.push(file_write(alloc, g, f, vbn, block, Stage::DataOnly))?;
        push_last_header(alloc, &mut writes, g, f, vbn)?;
    } else {
        writes.push(file_write(alloc, g, f, vbn, block, Stage::Done))?;
    }
    Ok(writes)
}

// Behind the first header of the file.
fn within(
    alloc: Global,
    seen: &Seen,
    f: &FileSeen<'_>,
    vbn: u32,
    text: &Name,
    rest: Rest<'_>,
) -> Result<Need, NoMemory>
    requires geometry { IsGeometry seen.now.geometry }
    requires number { f.now.num ≤ seen.now.geometry.files }
    requires alone { f.now.rest.now ≡ [] }
    requires readable { IsReadable f.now }
    requires followed { IsFollowed seen.now.geometry vbn f.now.fields f.now.head.now rest.blocks.now }
    requires vbn { vbn ≤ 65536 }
    requires text { length text.now ≤ 512 }
    ensures { IfOk result (λ need. need ≡ goes_on_by (write_file seen.now.geometry vbn text.now (file_seen seen.now.geometry f.now)) rest.entry (space_of seen.now)) }
{
    let g = &seen.geometry;
    if is_outside(g, f, vbn) {
        return Ok(refused(alloc, Refusal::EndOfFile));
    }
    match part_seen(g, Mode::PW, vbn, f, rest) {
        Chained::Next(need) => Ok(need),
        Chained::File(part, _) => Ok(Need::Ready(Plan {
            writes: block_writes(alloc, g, &part, vbn, &text_block(text))?,
            ask: None,
            reply: Reply::Written,
        })),
    }
}

// With a file that the channel has open in this mode.
fn write_on(alloc: Global, p: Chan, vbn: u32, text: &Name, seen: &Seen) -> Result<Need, NoMemory>
    requires geometry { IsGeometry seen.now.geometry }
    requires inside { HeadIsInside seen.now.blocks }
    requires followed { HeadIsFollowed seen.now.geometry vbn seen.now.blocks }
    requires vbn { vbn ≤ 65536 }
    requires text { length text.now ≤ 512 }
    ensures { IfOk result (λ need. need ≡ next_of (write_on seen.now.geometry (Some p) vbn text.now) seen.now) }
{
    if is_reading(p.mode) {
        return Ok(refused(alloc, Refusal::NoPriv));
    }
    match open_seen(alloc, &seen.geometry, p.file, Mode::PW, seen.all()) {
        Opened::Next(need) => Ok(need),
        Opened::File(f, rest) => within(alloc, seen, &f, vbn, text, rest),
    }
}

/// What a WRITE needs next. An error says that memory ran out.
#[tactic(auto, unfolding(op_law::specs::Channels::write_events))]
pub(crate) fn write_next(
    alloc: Global,
    vbn: u32,
    text: &Name,
    seen: &Seen,
) -> Result<Need, NoMemory>
    requires geometry { IsGeometry seen.now.geometry }
    requires inside { HeadIsInside seen.now.blocks }
    requires followed { HeadIsFollowed seen.now.geometry vbn seen.now.blocks }
    requires vbn { vbn ≤ 65536 }
    requires text { length text.now ≤ 512 }
    ensures { IfOk result (λ need. need ≡ next_of (write_events seen.now.geometry seen.now.channel vbn text.now) seen.now) }
{
    match seen.channel {
        None => Ok(refused(alloc, Refusal::NotOpen)),
        Some(p) => write_on(alloc, p, vbn, text, seen),
    }
}
