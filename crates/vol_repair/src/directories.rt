//! Steps 2 and 3: system directories that cannot be read, or lack an entry, and directories that are marked for delete.

ghost use Rattle.std.specs.Prelude.{◌≡◌, ◌≤◌, ◌+◌, ℕ, List, [], true, not, Err, Ok, is_none, length, option_map, take, IfOk, OnOk};
ghost use Rattle.base_words.specs.Fields.{Block};
ghost use Rattle.base_words.specs.Lists.{written};
ghost use Rattle.fx_dir.specs.Directory.{directory};
ghost use Rattle.fx_home.specs.Homes.{IsWithinLimits};
ghost use Rattle.plain_rules.specs.SystemFiles.{is_system_entry};
ghost use Rattle.vol_faults.specs.Conditions.{IsSize};
ghost use Rattle.vol_init.specs.Layouts.{main_entries};
ghost use Rattle.vol_parts.specs.Catalogues.{plain_entries};
ghost use Rattle.vol_parts.specs.Conditions.{HasRunsInside};
ghost use Rattle.vol_parts.specs.Fatal.{dir_fault};
ghost use Rattle.vol_parts.specs.Volumes.{volume, IsNumber, body};
ghost use Rattle.vol_sound.specs.Kept.{is_marked_directory};
ghost use Rattle.vol_repair.specs.Aims.{Aim, Holds};
ghost use Rattle.vol_repair.specs.Phases.{IsBeforeDirs, IsAfterDirs};
ghost use Rattle.vol_repair.specs.Remaking.{laid, names_system, lacks_some, Becomes, IsWanted, IsNext, IsRemade};
ghost use Rattle.vol_repair.specs.Steps.{IsStep};
ghost use Rattle.vol_repair.specs.Touched.{IsTouched};

use crate::fault::StepFault;
use crate::laws::touching_is_easy;
use crate::making::make_other;
use crate::reaching::is_system_entry;
use base_words::Block;
use blk_drive::{ImageDev, Mirror};
use fx_dir::{DirFault, packed, read_dir};
use fx_home::Home;
use plain_cat::{DirEnt, NoMemory};
use std::alloc::{AllocError, Global};
use vol_init::main_blocks;
use vol_parts::{blocks_are_whole, body, dir_fault, fields, first_lbn, read_entries};

// ---- what the blocks of a volume say

// Whether one of these entries is that of a system file.
fn names_system(entries: &[DirEnt], n: u32) -> bool
    ensures { result ≡ names_system entries.now n }
{
    entries.iter().any(|e| is_system_entry(n, e))
}

// Whether these entries lack that of a system file.
fn lacks_some(entries: &[DirEnt]) -> bool
    ensures { result ≡ lacks_some entries.now }
{
    for n in 1..12u32 {
        if !names_system(entries, n) {
            return true;
        }
    }
    false
}

// Whether blocks are known to be a directory with no entries.
fn lists_none(alloc: Global, blocks: &[Block]) -> Result<bool, NoMemory>
    ensures { IfOk result (λ none. none ≡ true → directory blocks.now ≡ Ok []) }
{
    match read_dir(alloc, blocks) {
        Ok(found) => Ok(found.is_empty()),
        Err(DirFault::NoMemory) => Err(AllocError),
        Err(DirFault::BadRecord(_)) => Ok(false),
        Err(DirFault::BadOrder) => Ok(false),
        Err(DirFault::Clash) => Ok(false),
    }
}

// Whether the file of a number is a directory that is marked for delete.
fn is_marked_directory(home: &Home, blocks: &[Block], n: u32) -> bool
    requires limits { IsWithinLimits home.now }
    requires number { IsNumber (volume home.now blocks.now) n }
    ensures { result ≡ is_marked_directory (volume home.now blocks.now) n }
{
    match fields(home, blocks, n) {
        Some(f) => f.dir && f.marked,
        None => false,
    }
}

// ---- the blocks that a directory is to get

// The blocks of a directory with no entries.
fn empty_blocks(alloc: Global, cluster: u32) -> Result<Vec<Block>, NoMemory>
    ensures count { IfOk result (λ v. length v.items ≡ cluster) }
    ensures read { IfOk result (λ v. directory v.items ≡ Ok []) }
{
    match packed(alloc, &[], cluster)? {
        Some(blocks) => Ok(blocks),
        None => unreachable!(),
    }
}

// Those of the master file directory, if it lacks the entry of a system file.
fn main_wanted(
    alloc: Global,
    home: &Home,
    blocks: &[Block],
    n: u32,
) -> Result<Option<Vec<Block>>, NoMemory>
    requires limits { IsWithinLimits home.now }
    requires number { IsNumber (volume home.now blocks.now) n }
    requires runs { HasRunsInside (volume home.now blocks.now) n }
    ensures { let p = volume home.now blocks.now in IfOk result (λ o. Becomes p n (lacks_some (plain_entries (directory (body p n)))) main_entries (option_map (λ v. v.items) o)) }
{
    let all = body(alloc, home, blocks, n)?;
    let entries = read_entries(alloc, all.items())?;
    if !lacks_some(entries.items()) {
        return Ok(None);
    }
    Ok(Some(main_blocks(alloc, u32::from(home.cluster))?))
}

// Those of [SYSLOST], if it cannot be read.
fn lost_wanted(
    alloc: Global,
    home: &Home,
    blocks: &[Block],
    n: u32,
) -> Result<Option<Vec<Block>>, NoMemory>
    requires limits { IsWithinLimits home.now }
    requires number { IsNumber (volume home.now blocks.now) n }
    requires runs { HasRunsInside (volume home.now blocks.now) n }
    ensures { let p = volume home.now blocks.now in IfOk result (λ o. Becomes p n (not (is_none (dir_fault p n))) [] (option_map (λ v. v.items) o)) }
{
    if dir_fault(alloc, home, blocks, n)?.is_none() {
        return Ok(None);
    }
    Ok(Some(empty_blocks(alloc, u32::from(home.cluster))?))
}

// Those of a directory that is marked for delete, if it has entries.
fn marked_wanted(
    alloc: Global,
    home: &Home,
    blocks: &[Block],
    n: u32,
) -> Result<Option<Vec<Block>>, NoMemory>
    requires limits { IsWithinLimits home.now }
    requires number { IsNumber (volume home.now blocks.now) n }
    requires runs { HasRunsInside (volume home.now blocks.now) n }
    ensures { let p = volume home.now blocks.now in IfOk result (λ o. Becomes p n (is_marked_directory p n) [] (option_map (λ v. v.items) o)) }
{
    if !is_marked_directory(home, blocks, n) {
        return Ok(None);
    }
    let all = body(alloc, home, blocks, n)?;
    if lists_none(alloc, all.items())? {
        return Ok(None);
    }
    Ok(Some(empty_blocks(alloc, u32::from(home.cluster))?))
}

// The blocks that the file of a number is to get, if it is to get others. The flag says whether it was sound at first.
fn wanted(
    alloc: Global,
    home: &Home,
    blocks: &[Block],
    sound: bool,
    n: u32,
) -> Result<Option<Vec<Block>>, NoMemory>
    requires limits { IsWithinLimits home.now }
    requires number { IsNumber (volume home.now blocks.now) n }
    requires runs { HasRunsInside (volume home.now blocks.now) n }
    ensures { IfOk result (λ o. IsWanted (volume home.now blocks.now) sound n (option_map (λ v. v.items) o)) }
{
    if n == 4 {
        return main_wanted(alloc, home, blocks, n);
    }
    if n == 11 {
        return lost_wanted(alloc, home, blocks, n);
    }
    if sound {
        return marked_wanted(alloc, home, blocks, n);
    }
    Ok(None)
}

// ---- writes

// Writes blocks one behind another, from an LBN on.
fn write_blocks<I: ImageDev>(m: &mut Mirror<I>, lbn: u32, blocks: &[Block]) -> Result<(), StepFault>
    requires size { IsSize (length m.old.blocks) }
    requires inside { lbn + length blocks.now ≤ length m.old.blocks }
    ensures step { (a : Aim) → ((k : ℕ) → Holds a (written (take k (laid lbn blocks.now)) m.old.blocks))
        → IsStep (Holds a) m.old.blocks m.new.blocks (I.told m.old.image) (I.told m.new.image) (I.faults m.old.image) (I.faults m.new.image) (result ≡ Err StepFault.ImageFault) }
    ensures ok { OnOk result (m.new.blocks ≡ written (laid lbn blocks.now) m.old.blocks) }
{
    for i in 0..blocks.len() {
        make_other(m, lbn + i as u32, &blocks[i])?;
    }
    Ok(())
}

// Gives the file of a number the blocks that it is to have, if it is to get others.
fn remake<I: ImageDev>(
    alloc: Global,
    m: &mut Mirror<I>,
    home: &Home,
    sound: bool,
    n: u32,
) -> Result<(), StepFault>
    requires limits { IsWithinLimits home.now }
    requires size { IsSize (length m.old.blocks) }
    requires next { (first : List Block) × IsNext home.now first sound n m.old.blocks }
    ensures step { (first : List Block) → IsNext home.now first sound n m.old.blocks
        → IsStep (IsTouched home.now first) m.old.blocks m.new.blocks (I.told m.old.image) (I.told m.new.image) (I.faults m.old.image) (I.faults m.new.image) (result ≡ Err StepFault.ImageFault) }
    ensures ok { (first : List Block) → IsNext home.now first sound n m.old.blocks → OnOk result (IsRemade home.now first n m.old.blocks m.new.blocks) }
{
    touching_is_easy();
    let Some(blocks) = wanted(alloc, home, m.all(), sound, n)? else {
        return Ok(());
    };
    blocks_are_whole(blocks.as_slice());
    let lbn = first_lbn(home, m.all(), n);
    write_blocks(m, lbn, blocks.as_slice())
}

// Makes [SYSLOST] empty if it cannot be read, writes the entries of the system files to a master file directory that lacks one, and
// empties each sound directory that is marked for delete and has entries.
pub(crate) fn make_directories<I: ImageDev>(
    alloc: Global,
    m: &mut Mirror<I>,
    home: &Home,
    sound: &[bool],
) -> Result<(), StepFault>
    requires limits { IsWithinLimits home.now }
    requires size { IsSize (length m.old.blocks) }
    requires before { (first : List Block) × IsBeforeDirs home.now first sound.now m.old.blocks }
    ensures step { (first : List Block) → IsBeforeDirs home.now first sound.now m.old.blocks
        → IsStep (IsTouched home.now first) m.old.blocks m.new.blocks (I.told m.old.image) (I.told m.new.image) (I.faults m.old.image) (I.faults m.new.image) (result ≡ Err StepFault.ImageFault) }
    ensures ok { (first : List Block) → IsBeforeDirs home.now first sound.now m.old.blocks → OnOk result (IsAfterDirs home.now first m.old.blocks m.new.blocks) }
{
    for n in 1..home.files + 1 {
        remake(alloc, m, home, sound[n as usize - 1], n)?;
    }
    Ok(())
}
