//! What a CLOSE needs next.

ghost use Rattle.std.specs.Prelude.{◌≡◌, ◌≤◌, ◌/◌, true, false, [], option_map, IfOk};
ghost use Rattle.plain_cat.specs.declared.command.Cmd.TheVariants as cmd;
ghost use Rattle.plain_cat.specs.declared.mode.Mode.TheVariants as mode;
ghost use Rattle.plain_cat.specs.declared.reply.Reply.TheVariants as reply;
ghost use Rattle.plain_rules.specs.Lookups.{extra};
ghost use Rattle.vol_parts.specs.Parts.{IsGeometry};
ghost use Rattle.op_law.specs.Events.{Space as Given, next_of};
ghost use Rattle.op_law.specs.Rows.{answers};
ghost use Rattle.op_law.specs.Refusing.{seen_file, used_in, if_file, through_open};
ghost use Rattle.op_law.specs.Behind.{goes_on_by};
ghost use Rattle.op_law.specs.Readable.{AreInside, HeadIsInside};
ghost use Rattle.op_law.specs.Freeing.{all_clusters, freeing_writes};
ghost use Rattle.op_law.specs.Channels.{close_plan, close_in, close_events};
ghost use Rattle.op_law.specs.Fits.{FitsSeen};
ghost use Rattle.op_steps.specs.Chains.{AreHeaders};
ghost use Rattle.op_steps.specs.Seeing.{file_seen, IsReadable};
ghost use Rattle.op_steps.specs.Looking.{space_seen, IsWhole};
ghost use Rattle.op_steps.specs.FreeingSeeing.{HasNumbers};
ghost use Rattle.op_access.specs.Asks.{ask_by};
ghost use Rattle.op_access.specs.Seeing.{IsFollowed, HeadIsFollowed, file_goes};

use base_words::Block;
use op_law::{
    Ask, Chan, Looked, Need, NoMemory, Plan, Rest, Seen, Writes, answered, header_seen, is_number,
    refused,
};
use op_steps::{
    Chained, FileSeen, Space, SpaceSeen, all_clusters, chain_seen, file_used, push_gone, space_seen,
};
use plain_cat::{Clusters, Mode, Refusal, Reply};
use std::alloc::Global;
use vol_parts::Geometry;

// The ask whether no other channel has this file open, unless the mode of this one says so: nothing goes with EX.
fn ask_by(file: u32, chan: u8, mode: Mode) -> Option<Ask>
    ensures { result ≡ ask_by file chan mode }
{
    match mode {
        Mode::EX => None,
        _ => Some(Ask {
            at: 0,
            file,
            chan,
            mode: Mode::EX,
            refused: Reply::Closed { gone: false },
        }),
    }
}

// The plan by which a marked file goes, if no other channel has it open.
fn closed(
    alloc: Global,
    g: &Geometry,
    chan: u8,
    mode: Mode,
    f: &FileSeen<'_>,
    clusters: &Clusters,
    space: &SpaceSeen<'_>,
) -> Result<Plan, NoMemory>
    requires geometry { IsGeometry g.now }
    requires numbers { HasNumbers g.now f.now }
    requires readable { IsReadable f.now }
    requires clusters { clusters.now ≡ all_clusters g.now (file_seen g.now f.now) }
    requires whole { IsWhole g.now clusters.now space.now }
    ensures { IfOk result (λ p. p ≡ close_plan f.now.num chan mode (freeing_writes g.now (file_seen g.now f.now) (space_seen space.now))) }
{
    let mut writes = Writes::new(alloc);
    push_gone(alloc, &mut writes, g, f, clusters, space)?;
    Ok(Plan {
        writes,
        ask: ask_by(f.num, chan, mode),
        reply: Reply::Closed { gone: true },
    })
}

// Behind all headers of the file.
fn whole_looked(
    alloc: Global,
    g: &Geometry,
    chan: u8,
    mode: Mode,
    f: &FileSeen<'_>,
    rest: Rest<'_>,
) -> Result<Need, NoMemory>
    requires geometry { IsGeometry g.now }
    requires numbers { HasNumbers g.now f.now }
    requires readable { IsReadable f.now }
    ensures { IfOk result (λ need. (given : Given) → goes_on_by (file_goes g.now chan mode (file_seen g.now f.now)) rest.entry given ≡ need) }
{
    let clusters = all_clusters(alloc, g, f)?;
    match space_seen(alloc, g, &clusters, rest)? {
        Space::Next(need) => Ok(need),
        Space::All(space) => {
            let plan = closed(alloc, g, chan, mode, f, &clusters, &space)?;
            Ok(Need::Ready(plan))
        }
    }
}

// Behind the first header of the file.
fn file_looked(
    alloc: Global,
    g: &Geometry,
    chan: u8,
    mode: Mode,
    f: &FileSeen<'_>,
    rest: Rest<'_>,
) -> Result<Need, NoMemory>
    requires geometry { IsGeometry g.now }
    requires number { f.now.num ≤ g.now.files }
    requires alone { f.now.rest.now ≡ [] }
    requires readable { IsReadable f.now }
    requires followed { f.now.fields.marked ≡ true → AreHeaders g.now (extra (f.now.fields.blocks / g.now.cluster)) f.now.fields f.now.head.now rest.blocks.now }
    ensures { IfOk result (λ need. (given : Given) → goes_on_by (close_in g.now chan mode (file_seen g.now f.now)) rest.entry given ≡ need) }
{
    if !f.fields.marked {
        return Ok(answered(alloc, Reply::Closed { gone: false }));
    }
    match chain_seen(g, Mode::PW, f, rest) {
        Chained::Next(need) => Ok(need),
        Chained::File(whole, behind) => whole_looked(alloc, g, chan, mode, &whole, behind),
    }
}

// Behind the block of the header. A file that a channel has open is in use.
fn header_looked(
    alloc: Global,
    g: &Geometry,
    chan: u8,
    channel: Chan,
    head: &Block,
    rest: Rest<'_>,
) -> Result<Need, NoMemory>
    requires geometry { IsGeometry g.now }
    requires number { channel.file.num ≤ g.now.files }
    requires inside { AreInside head.now }
    requires followed { IsFollowed g.now channel.file.seq head.now rest.blocks.now }
    ensures { IfOk result (λ need. (given : Given) → goes_on_by (if_file (answers (reply.Closed false)) (close_in g.now chan channel.mode) (option_map (seen_file g.now channel.file.num head.now) (used_in channel.file.seq head.now))) rest.entry given ≡ need) }
{
    match file_used(channel.file, head) {
        Some(f) => file_looked(alloc, g, chan, channel.mode, &f, rest),
        None => Ok(answered(alloc, Reply::Closed { gone: false })),
    }
}

// On a channel that has this open.
fn open_looked(
    alloc: Global,
    g: &Geometry,
    chan: u8,
    channel: Chan,
    rest: Rest<'_>,
) -> Result<Need, NoMemory>
    requires geometry { IsGeometry g.now }
    requires inside { HeadIsInside rest.blocks.now }
    requires followed { HeadIsFollowed g.now channel.file.seq rest.blocks.now }
    ensures { IfOk result (λ need. (given : Given) → goes_on_by (through_open g.now channel.file mode.PW (answers (reply.Closed false)) (close_in g.now chan channel.mode)) rest.entry given ≡ need) }
{
    if !is_number(g, channel.file) {
        return Ok(refused(alloc, Refusal::NoSuchFile));
    }
    match header_seen(alloc, g, channel.file, Mode::PW, rest) {
        Looked::Next(need) => Ok(need),
        Looked::Seen(head, behind) => header_looked(alloc, g, chan, channel, head, behind),
    }
}

/// What a CLOSE needs next. An error says that memory ran out.
#[tactic(auto, unfolding(op_law::specs::Channels::close_events))]
pub(crate) fn close_next(alloc: Global, chan: u8, seen: &Seen) -> Result<Need, NoMemory>
    requires geometry { IsGeometry seen.now.geometry }
    requires fits { FitsSeen (cmd.CloseFile chan) seen.now }
    ensures { IfOk result (λ need. need ≡ next_of (close_events seen.now.geometry seen.now.channel chan) seen.now) }
{
    match &seen.channel {
        None => Ok(refused(alloc, Refusal::NotOpen)),
        Some(channel) => open_looked(alloc, &seen.geometry, chan, *channel, seen.all()),
    }
}
