//! A new file: what is said of it, and the block of its header.

ghost use Rattle.std.specs.Prelude.{◌≡◌, ◌≤◌, ◌<◌, ◌+◌, ◌*◌, None, length, IfOk};
ghost use Rattle.plain_cat.specs.declared.ids.Fid.{Fid};
ghost use Rattle.plain_rules.specs.Changes.{next_seq, new_file, new_dir};
ghost use Rattle.vol_parts.specs.Parts.{IsGeometry};
ghost use Rattle.vol_spell.specs.Reading.{IsFileNumber};
ghost use Rattle.op_law.specs.Entering.{fields_for, new_header, slot_seq, numbered};
ghost use Rattle.plain_cat.specs.Names.{text_of};
ghost use Rattle.fx_header.specs.Headers.{header_read};
ghost use Rattle.op_steps.specs.Given.{IsOfVolume};
ghost use Rattle.op_create.specs.Files.{file_made, entry_made, IsSound};

use base_words::Block;
use fx_header::{Hdr, Slot, new_header, read_header, set_runs};
use op_law::NoMemory;
use op_steps::runs_for;
use plain_cat::{Clusters, Fid, Name, Uic};
use std::alloc::Global;
use vol_parts::Geometry;

/// A file that is to be made. Nothing is written in it.
#[derive(Clone, Copy)]
pub(crate) struct NewFile<'a> {
    /// The name of its entry, `NAME.TYP`.
    pub name: &'a Name,

    /// The version, 1 to 32,767.
    pub ver: u16,

    /// Its sequence, or 0 where its number is still to come.
    pub seq: u16,

    pub owner: Uic,

    /// It is a directory.
    pub dir: bool,

    /// How many clusters it has.
    pub clusters: u32,

    /// One more than its highest block that is written, or 0 where no mark is kept.
    pub mark: u32,

    /// The block that its end lies in.
    pub end: u32,
}

/// A file of so many clusters.
pub(crate) fn new_file<'a>(name: &'a Name, ver: u16, owner: Uic, clusters: u32) -> NewFile<'a>
    ensures { entry_made result ≡ record { name = name.now; ver = ver; file = new_file 0 owner clusters } }
{
    NewFile {
        name,
        ver,
        seq: 0,
        owner,
        dir: false,
        clusters,
        mark: 1,
        end: 1,
    }
}

/// A directory of one cluster, whose version is 1.
pub(crate) fn new_dir<'a>(g: &Geometry, name: &'a Name, owner: Uic) -> NewFile<'a>
    requires { IsGeometry g.now }
    ensures { entry_made result ≡ record { name = name.now; ver = 1; file = new_dir 0 owner g.now.cluster } }
{
    NewFile {
        name,
        ver: 1,
        seq: 0,
        owner,
        dir: true,
        clusters: 1,
        mark: 0,
        end: g.cluster + 1,
    }
}

// The last sequence that a slot tells.
fn slot_seq(slot: &Block) -> u16
    ensures { result ≡ slot_seq (header_read slot.now) }
{
    match read_header(slot) {
        Ok(Slot::Free(seq)) => seq,
        Ok(Slot::Used(h)) => h.seq,
        Err(_) => 0,
    }
}

// The sequence that comes behind this one.
fn next_seq(seq: u16) -> u16
    ensures { result ≡ next_seq seq }
{
    if seq == 65535 { 1 } else { seq + 1 }
}

/// A file with the sequence that its slot gives it.
pub(crate) fn numbered<'a>(slot: &Block, f: &NewFile<'a>) -> NewFile<'a>
    ensures { result ≡ record f.now { seq = next_seq (slot_seq (header_read slot.now)) } }
{
    NewFile {
        name: f.name,
        ver: f.ver,
        seq: next_seq(slot_seq(slot)),
        owner: f.owner,
        dir: f.dir,
        clusters: f.clusters,
        mark: f.mark,
        end: f.end,
    }
}

// The fields of a file's header.
fn fields_for(g: &Geometry, n: u32, f: &NewFile<'_>) -> Hdr
    requires geometry { IsGeometry g.now }
    requires sound { IsSound g.now f.now }
    ensures { result ≡ fields_for g.now n (file_made f.now) }
{
    Hdr {
        num: n,
        seq: f.seq,
        owner: f.owner.0,
        dir: f.dir,
        marked: false,
        blocks: g.cluster * f.clusters,
        mark: f.mark,
        end: f.end,
        byte: 0,
        seg: 0,
        ext: 0,
        ext_seq: 0,
    }
}

// What a header has for the name of its file: `NAME.TYP;v`.
fn text_of(alloc: Global, f: &NewFile<'_>) -> Result<Vec<u8>, NoMemory>
    ensures { IfOk result (λ text. text.items ≡ text_of f.now.name.now f.now.ver) }
{
    let ver = f.ver;
    let version = format!(in alloc; ";{ver}")?;
    let mut text = Vec::from_slice(alloc, f.name.items())?;
    text.extend_from_slice(version.as_bytes())?;
    Ok(text)
}

/// The header of a new file of these clusters under number n, which is entered in the directory `parent`. An error says that
/// memory ran out.
#[tactic(auto, unfolding(op_law::specs::Entering::new_header))]
pub(crate) fn header_block(
    alloc: Global,
    g: &Geometry,
    parent: Fid,
    n: u32,
    f: &NewFile<'_>,
    clusters: &Clusters,
) -> Result<Block, NoMemory>
    requires geometry { IsGeometry g.now }
    requires parent { parent.num ≤ 16777215 }
    requires number { IsFileNumber g.now n }
    requires sound { IsSound g.now f.now }
    requires count { length clusters.now ≡ f.now.clusters }
    requires within { IsOfVolume g.now clusters.now None }
    ensures { IfOk result (λ b. b ≡ new_header g.now parent n (entry_made f.now) clusters.now) }
{
    let text = text_of(alloc, f)?;
    let mut block = new_header(
        &fields_for(g, n, f),
        text.as_slice(),
        (parent.num, parent.seq),
    );
    let runs = runs_for(alloc, g, clusters)?;
    set_runs(&mut block, runs.as_slice());
    Ok(block)
}
