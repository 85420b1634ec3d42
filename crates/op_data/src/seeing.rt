//! The file that a channel has open: its number and its headers.

ghost use Rattle.std.specs.Prelude.{◌≡◌, option_map};
ghost use Rattle.base_words.specs.Fields.{Block};
ghost use Rattle.vol_parts.specs.Parts.{IsGeometry};
ghost use Rattle.vol_parts.specs.declared.geometry.Geometry.{Geometry as Volume};
ghost use Rattle.plain_cat.specs.declared.reply.Refusal.TheVariants as refusal;
ghost use Rattle.op_law.specs.Events.{Events, Fetch, Space, following};
ghost use Rattle.op_law.specs.Rows.{refuses};
ghost use Rattle.op_law.specs.Refusing.{SeenFile, seen_file, used_in, if_file, through_open};
ghost use Rattle.op_law.specs.SeenFiles.{file_place};
ghost use Rattle.op_law.specs.Channels.{is_outside_file};
ghost use Rattle.op_law.specs.Behind.{behind_block};
ghost use Rattle.op_law.specs.Readable.{AreInside, HeadIsInside};
ghost use Rattle.op_steps.specs.Seeing.{file_seen, IsReadable};
ghost use Rattle.op_data.specs.Seeing.{behind_open, IsFileOf, ShowsFile};

use base_words::Block;
use op_law::{Looked, Need, Rest, header_seen, is_number, refused};
use op_steps::{FileSeen, file_lbn, file_used};
use plain_cat::{Fid, Mode, Refusal};
use std::alloc::Global;
use vol_parts::Geometry;

/// The file that a channel has open, where its header is seen.
#[derive(Drop)]
pub(crate) enum Opened<'a> {
    /// The file, and what was seen behind its header.
    File(FileSeen<'a>, Rest<'a>),

    /// No such file is in use, or the header is not seen yet: what the command needs next.
    Next(Need),
}

// The file of a header.
fn file_in<'a>(alloc: Global, file: Fid, head: &'a Block, rest: Rest<'a>) -> Opened<'a>
    requires inside { AreInside head.now }
    ensures file { IsFileOf file.num head.now rest.entry.blocks.now result }
    ensures need { (g : Volume) (next : SeenFile → Events) (space : Space)
        → following (if_file (refuses refusal.EndOfFile) next (option_map (seen_file g file.num head.now) (used_in file.seq head.now))) rest.entry.locks.now rest.entry.blocks.now space ≡ behind_open g next space result }
{
    match file_used(file, head) {
        Some(f) => Opened::File(f, rest),
        None => Opened::Next(refused(alloc, Refusal::EndOfFile)),
    }
}

/// The file of an identifier behind its lock in this mode, which has to be in use. It takes no memory.
pub(crate) fn open_seen<'a>(
    alloc: Global,
    g: &Geometry,
    file: Fid,
    mode: Mode,
    rest: Rest<'a>,
) -> Opened<'a>
    requires geometry { IsGeometry g.now }
    requires inside { HeadIsInside rest.blocks.now }
    ensures file { ShowsFile g.now.files rest.entry.blocks.now result }
    ensures need { (next : SeenFile → Events) (space : Space)
        → following (through_open g.now file mode (refuses refusal.EndOfFile) next) rest.entry.locks.now rest.entry.blocks.now space ≡ behind_open g.now next space result }
{
    if !is_number(g, file) {
        return Opened::Next(refused(alloc, Refusal::NoSuchFile));
    }
    match header_seen(alloc, g, file, mode, rest) {
        Looked::Next(need) => Opened::Next(need),
        Looked::Seen(head, behind) => file_in(alloc, file, head, behind),
    }
}

/// Whether a virtual block is 0 or past the allocated blocks.
pub(crate) fn is_outside(g: &Geometry, f: &FileSeen<'_>, vbn: u32) -> bool
    requires { IsGeometry g.now }
    ensures { result ≡ is_outside_file g.now (file_seen g.now f.now).file vbn }
{
    vbn == 0 || g.cluster * (f.fields.blocks / g.cluster) < vbn
}

/// Where a virtual block stands. It is 0 where the file has no such block.
pub(crate) fn file_place(g: &Geometry, f: &FileSeen<'_>, vbn: u32) -> u32
    requires { IsReadable f.now }
    ensures { result ≡ file_place (file_seen g.now f.now) vbn }
{
    file_lbn(f, vbn.saturating_sub(1) as usize).unwrap_or(0)
}

/// A look at a file's own block. It takes no memory.
pub(crate) fn bare_seen<'a>(lbn: u32, rest: Rest<'a>) -> Looked<'a>
    ensures { (next : Block → Events) (space : Space) → following (Fetch lbn next) rest.entry.locks.now rest.entry.blocks.now space ≡ behind_block next space result }
{
    match rest.blocks {
        [(_, block), blocks @ ..] => Looked::Seen(
            block,
            Rest {
                locks: rest.locks,
                blocks,
            },
        ),
        [] => Looked::Next(Need::Bare(lbn)),
    }
}
