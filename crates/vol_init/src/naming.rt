//! The entries that the master file directory has of the system files, and the blocks that they take.
ghost use Rattle.std.specs.Prelude.{◌≡◌, ◌≤◌, ◌++◌, [], ◌∷◌, true, Some, Ok, IfOk, length};
ghost use Rattle.base_words.specs.Packing.{Fits};
ghost use Rattle.fx_dir.specs.Directory.{directory, all_entries};
ghost use Rattle.fx_dir.specs.Entries.{rises};
ghost use Rattle.fx_dir.specs.Lists.{Each};
ghost use Rattle.fx_dir.specs.Writing.{IsInForm, IsRanged, IsUniform, name_of, packed};
ghost use Rattle.vol_init.specs.Layouts.{main_entry, main_entries};

use base_words::Block;
use fx_dir::{NoMemory, RawEnt, RawName, packed};
use std::alloc::Global;

/// Appends the entry of a system file, whose number is 1 to 11.
fn add_entry(alloc: Global, list: &mut Vec<RawEnt>, name: &[u8], n: u32) -> Result<(), NoMemory>
    requires short { length name.now ≤ 79 }
    requires system { n ≤ 11 }
    ensures { IfOk result (λ _. list.new.items ≡ list.old.items ++ main_entry name.now n ∷ []) }
{
    list.push(RawEnt {
        name: RawName::new(name),
        ver: 1,
        num: n,
        seq: if n <= 9 { n as u16 } else { 1 },
        limit: 32767,
        flags: 0,
    })?;
    Ok(())
}

/// The entries of a master file directory that names the eleven system files alone, in order of name.
pub fn main_entries(alloc: Global) -> Result<Vec<RawEnt>, NoMemory>
    ensures { IfOk result (λ v. v.items ≡ main_entries) }
{
    let mut list = Vec::new(alloc);
    add_entry(alloc, &mut list, b"000000.DIR", 4)?;
    add_entry(alloc, &mut list, b"BACKUP.SYS", 8)?;
    add_entry(alloc, &mut list, b"BADBLK.SYS", 3)?;
    add_entry(alloc, &mut list, b"BADLOG.SYS", 9)?;
    add_entry(alloc, &mut list, b"BITMAP.SYS", 2)?;
    add_entry(alloc, &mut list, b"CONTIN.SYS", 7)?;
    add_entry(alloc, &mut list, b"CORIMG.SYS", 5)?;
    add_entry(alloc, &mut list, b"INDEXF.SYS", 1)?;
    add_entry(alloc, &mut list, b"QUOTA.SYS", 10)?;
    add_entry(alloc, &mut list, b"SYSLOST.DIR", 11)?;
    add_entry(alloc, &mut list, b"VOLSET.SYS", 6)?;
    Ok(list)
}

/// The blocks of a directory of one cluster, which has room for these entries.
pub(crate) fn directory_blocks(
    alloc: Global,
    entries: &[RawEnt],
    cluster: u32,
) -> Result<Vec<Block>, NoMemory>
    requires order { rises entries.now ≡ true }
    requires form { Each IsInForm entries.now }
    requires ranged { Each IsRanged entries.now }
    requires uniform { IsUniform entries.now }
    requires room { Fits name_of cluster entries.now }
    ensures written { IfOk result (λ v. Some v.items ≡ packed cluster entries.now) }
    ensures count { IfOk result (λ v. length v.items ≡ cluster) }
    ensures read { IfOk result (λ v. directory v.items ≡ Ok entries.now) }
    ensures listed { IfOk result (λ v. all_entries v.items ≡ entries.now) }
{
    match packed(alloc, entries, cluster)? {
        Some(blocks) => Ok(blocks),
        None => unreachable!(),
    }
}

/// The blocks of a master file directory that has one cluster, of so many blocks, and names the eleven system files alone.
pub fn main_blocks(alloc: Global, cluster: u32) -> Result<Vec<Block>, NoMemory>
    requires { 1 ≤ cluster }
    ensures written { IfOk result (λ v. Some v.items ≡ packed cluster main_entries) }
    ensures count { IfOk result (λ v. length v.items ≡ cluster) }
    ensures read { IfOk result (λ v. directory v.items ≡ Ok main_entries) }
    ensures listed { IfOk result (λ v. all_entries v.items ≡ main_entries) }
{
    let entries = main_entries(alloc)?;
    directory_blocks(alloc, entries.as_slice(), cluster)
}
