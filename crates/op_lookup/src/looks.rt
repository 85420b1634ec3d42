//! What each command needs next.

ghost use Rattle.std.specs.Prelude.{◌≡◌, IfOk};
ghost use Rattle.vol_parts.specs.Parts.{IsGeometry};
ghost use Rattle.op_law.specs.Readable.{HeadIsInside, HeadIsReadable};
ghost use Rattle.plain_rules.specs.Lookups.{found};
ghost use Rattle.op_law.specs.Events.{next_of};
ghost use Rattle.op_law.specs.Needs.{facts_of, lookup_events, list_events, stat_events};

use fx_header::Hdr;
use op_law::{
    Listing, Looked, Need, NoMemory, Seen, answered, directory_seen, entries_read, entry_seen,
    header_seen, live_in, refused,
};
use plain_cat::{DirEnt, Fid, Mode, Name, Refusal, Reply, Uic};
use std::alloc::Global;

// What a look-up answers.
fn found(entry: Option<DirEnt>) -> Reply
    ensures { result ≡ found entry }
{
    match entry {
        Some(e) => Reply::Found {
            fid: e.fid,
            name: e.name,
            ver: e.ver,
        },
        None => Reply::Refused(Refusal::NoSuchFile),
    }
}

// LOOKUP
#[tactic(auto, unfolding(op_law::specs::Needs::lookup_events))]
pub(crate) fn lookup_next(
    alloc: Global,
    dir: Fid,
    name: &Name,
    ver: u16,
    seen: &Seen,
) -> Result<Need, NoMemory>
    requires geometry { IsGeometry seen.now.geometry }
    requires inside { HeadIsInside seen.now.blocks }
    requires readable { HeadIsReadable dir seen.now.blocks }
    ensures { IfOk result (λ need. need ≡ next_of (lookup_events seen.now.geometry dir name.now ver) seen.now) }
{
    match directory_seen(alloc, &seen.geometry, dir, Mode::PR, seen.all()) {
        Listing::Next(need) => Ok(need),
        Listing::All(_, blocks, _) => {
            let entry = entry_seen(alloc, blocks, name, ver)?;
            Ok(answered(alloc, found(entry)))
        }
    }
}

// LIST
#[tactic(auto, unfolding(op_law::specs::Needs::list_events))]
pub(crate) fn list_next(alloc: Global, dir: Fid, seen: &Seen) -> Result<Need, NoMemory>
    requires geometry { IsGeometry seen.now.geometry }
    requires inside { HeadIsInside seen.now.blocks }
    requires readable { HeadIsReadable dir seen.now.blocks }
    ensures { IfOk result (λ need. need ≡ next_of (list_events seen.now.geometry dir) seen.now) }
{
    match directory_seen(alloc, &seen.geometry, dir, Mode::PR, seen.all()) {
        Listing::Next(need) => Ok(need),
        Listing::All(_, blocks, _) => Ok(answered(
            alloc,
            Reply::Listed(entries_read(alloc, blocks)?),
        )),
    }
}

// The facts of a header.
fn facts_of(h: &Hdr) -> Reply
    ensures { result ≡ facts_of h.now }
{
    Reply::Facts {
        dir: h.dir,
        owner: Uic(h.owner),
        blocks: h.blocks,
        mark: h.mark,
        end: h.end,
        byte: h.byte,
    }
}

// STAT
#[tactic(auto, unfolding(op_law::specs::Needs::stat_events))]
pub(crate) fn stat_next(alloc: Global, file: Fid, seen: &Seen) -> Need
    requires { IsGeometry seen.now.geometry }
    ensures { result ≡ next_of (stat_events seen.now.geometry file) seen.now }
{
    match header_seen(alloc, &seen.geometry, file, Mode::PR, seen.all()) {
        Looked::Next(need) => need,
        Looked::Seen(header, _) => match live_in(header, file.seq) {
            Some(h) => answered(alloc, facts_of(&h)),
            None => refused(alloc, Refusal::NoSuchFile),
        },
    }
}
