//! The catalogue of a small fresh volume, made by hand.

ghost use Rattle.std.specs.Prelude.{◌≡◌, ◌++◌, ◌∷◌, [], ◌+◌, ◌*◌, ◌^◌, ◌<◌, None, false, IfOk, OnOk, replicate};
ghost use Rattle.plain_cat.specs.declared.cat.Slot.TheVariants.{Free};
ghost use Rattle.rows_sample.specs.Fresh.{main_entry, main_entries, system_file, plain_file, directory, system_files, quota_rows, fresh};

use plain_cat::{
    Blocks, Cat, Channels, DirEnt, DirEnts, Fid, File, Files, Flags, Name, NoMemory, QuotaRow,
    QuotaRows, Slot, Uic,
};
use std::alloc::Global;

/// [1,1].
const SYSTEM: Uic = Uic(65537);

/// [1,4].
const USER: Uic = Uic(65540);

fn name_of(alloc: Global, text: &[u8]) -> Result<Name, NoMemory>
    ensures { IfOk result (λ n. n ≡ text.now) }
{
    let mut name = Name::new(alloc);
    for byte in text {
        name.push(*byte)?;
    }
    Ok(name)
}

fn push_entry(
    alloc: Global,
    entries: &mut DirEnts,
    name: &[u8],
    num: u32,
    seq: u16,
) -> Result<(), NoMemory>
    ensures { OnOk result (entries.new ≡ entries.old ++ main_entry name.now num seq ∷ []) }
{
    let name = name_of(alloc, name)?;
    entries.push(DirEnt {
        name,
        ver: 1,
        fid: Fid { num, seq },
    })
}

#[tactic(auto, unfolding(crate::specs::Fresh::main_entries))]
fn main_entries(alloc: Global) -> Result<DirEnts, NoMemory>
    ensures { IfOk result (λ es. es ≡ main_entries) }
{
    let mut entries = DirEnts::new(alloc);
    push_entry(alloc, &mut entries, b"000000.DIR", 4, 4)?;
    push_entry(alloc, &mut entries, b"BACKUP.SYS", 8, 8)?;
    push_entry(alloc, &mut entries, b"BADBLK.SYS", 3, 3)?;
    push_entry(alloc, &mut entries, b"BADLOG.SYS", 9, 9)?;
    push_entry(alloc, &mut entries, b"BITMAP.SYS", 2, 2)?;
    push_entry(alloc, &mut entries, b"CONTIN.SYS", 7, 7)?;
    push_entry(alloc, &mut entries, b"CORIMG.SYS", 5, 5)?;
    push_entry(alloc, &mut entries, b"INDEXF.SYS", 1, 1)?;
    push_entry(alloc, &mut entries, b"QUOTA.SYS", 10, 1)?;
    push_entry(alloc, &mut entries, b"SYSLOST.DIR", 11, 1)?;
    push_entry(alloc, &mut entries, b"VOLSET.SYS", 6, 6)?;
    Ok(entries)
}

fn system_file(alloc: Global, seq: u16, clusters: u32, dir: bool, entries: DirEnts) -> Slot
    requires { 4 * clusters + 1 < 2 ^ 32 }
    ensures { result ≡ system_file seq clusters dir entries }
{
    Slot::Used(File {
        seq,
        owner: SYSTEM,
        dir,
        clusters,
        mark: 0,
        end: 4 * clusters + 1,
        byte: 0,
        marked: false,
        written: Blocks::new(alloc),
        entries,
    })
}

fn plain_file(alloc: Global, seq: u16, clusters: u32) -> Slot
    requires { 4 * clusters + 1 < 2 ^ 32 }
    ensures { result ≡ plain_file seq clusters }
{
    system_file(alloc, seq, clusters, false, DirEnts::new(alloc))
}

fn directory(alloc: Global, seq: u16, entries: DirEnts) -> Slot
    ensures { result ≡ directory seq entries }
{
    system_file(alloc, seq, 1, true, entries)
}

#[tactic(auto, unfolding(crate::specs::Fresh::system_files))]
fn system_files(alloc: Global) -> Result<Files, NoMemory>
    ensures { IfOk result (λ fs. fs ≡ system_files) }
{
    let mut files = Files::new(alloc);
    files.push(plain_file(alloc, 1, 21))?;
    files.push(plain_file(alloc, 2, 1))?;
    files.push(plain_file(alloc, 3, 0))?;
    files.push(directory(alloc, 4, main_entries(alloc)?))?;
    files.push(plain_file(alloc, 5, 0))?;
    files.push(plain_file(alloc, 6, 0))?;
    files.push(plain_file(alloc, 7, 0))?;
    files.push(plain_file(alloc, 8, 0))?;
    files.push(plain_file(alloc, 9, 0))?;
    files.push(plain_file(alloc, 1, 1))?;
    files.push(directory(alloc, 1, DirEnts::new(alloc)))?;
    Ok(files)
}

fn push_free(files: &mut Files, count: usize) -> Result<(), NoMemory>
    ensures { OnOk result (files.new ≡ files.old ++ replicate count (Free 0)) }
{
    for _i in 0..count {
        files.push(Slot::Free(0))?;
    }
    Ok(())
}

fn quota_rows(alloc: Global) -> Result<QuotaRows, NoMemory>
    ensures { IfOk result (λ rs. rs ≡ quota_rows) }
{
    let mut rows = QuotaRows::new(alloc);
    rows.push(QuotaRow {
        owner: SYSTEM,
        usage: 111,
        quota: 1088,
        over: 0,
    })?;
    rows.push(QuotaRow {
        owner: USER,
        usage: 0,
        quota: 1088,
        over: 0,
    })?;
    Ok(rows)
}

fn no_opens(alloc: Global) -> Result<Channels, NoMemory>
    ensures { IfOk result (λ os. os ≡ replicate 64 None) }
{
    let mut opens = Channels::new(alloc);
    for _i in 0..64usize {
        opens.push(None)?;
    }
    Ok(opens)
}

fn no_flags(alloc: Global) -> Result<Flags, NoMemory>
    ensures { IfOk result (λ fs. fs ≡ replicate 64 false) }
{
    let mut flags = Flags::new(alloc);
    for _i in 0..64usize {
        flags.push(false)?;
    }
    Ok(flags)
}

/// The catalogue of a fresh volume of 1,024 blocks, with clusters of 4 blocks and 64 file numbers: its eleven system files
/// of [1,1] with their entries in the main directory, the other 53 numbers free and never used, quota rows of [1,1] and
/// [1,4], and no open channel.
#[tactic(auto, unfolding(crate::specs::Fresh::fresh))]
pub fn fresh_catalogue(alloc: Global) -> Result<Cat, NoMemory>
    ensures { IfOk result (λ c. c ≡ fresh) }
{
    let mut files = system_files(alloc)?;
    push_free(&mut files, 53)?;
    Ok(Cat {
        factor: 4,
        total: 256,
        reserved: 25,
        rows: 64,
        files,
        quota: quota_rows(alloc)?,
        opens: no_opens(alloc)?,
        leaked: 0,
        leaked_numbers: no_flags(alloc)?,
    })
}
