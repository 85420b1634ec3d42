//! Findings of entries that stand in two blocks of a directory.

ghost use Rattle.std.specs.Prelude.{◌≡◌, None, nat_lt, map, filter, length, IfOk};
ghost use Rattle.fx_home.specs.Homes.{IsWithinLimits};
ghost use Rattle.fx_dir.specs.Lists.{joined};
ghost use Rattle.fx_dir.specs.Directory.{entries_at};
ghost use Rattle.vol_parts.specs.Volumes.{volume, IsNumber, numbers};
ghost use Rattle.vol_parts.specs.Catalogues.{slot_of, catalogue};
ghost use Rattle.vol_parts.specs.Fatal.{dir_fault};
ghost use Rattle.vol_parts.specs.Conditions.{HasRunsInside, HasAllRunsInside};
ghost use Rattle.vol_parts.specs.Warnings.{has_doubles};
ghost use Rattle.vol_analyze.specs.Conditions.{HasSoundDirectories};

use base_words::Block;
use fx_dir::{DirFault, read_dir};
use fx_home::Home;
use plain_cat::{Cat, NoMemory, Slot};
use std::alloc::{AllocError, Global};
use vol_parts::body;

// How many entries a block has; none where it is no list of records.
#[tactic(auto, using(crate::proofs::Reading::single_ok, crate::proofs::Reading::single_err))]
fn entry_count(alloc: Global, b: &Block) -> Result<usize, NoMemory>
    ensures { IfOk result (λ k. k ≡ length (entries_at b.now)) }
{
    match read_dir(alloc, &[*b]) {
        Ok(found) => Ok(found.len()),
        Err(DirFault::NoMemory) => Err(AllocError),
        Err(DirFault::BadRecord(_)) => Ok(0),
        Err(DirFault::BadOrder) => Ok(0),
        Err(DirFault::Clash) => Ok(0),
    }
}

/// Whether the blocks of a directory have more than so many entries. A block that is no list of records has none.
pub fn have_more(alloc: Global, blocks: &[Block], n: usize) -> Result<bool, NoMemory>
    ensures { IfOk result (λ more. more ≡ nat_lt n (length (joined (map entries_at blocks.now)))) }
{
    let mut left = n;
    for b in blocks {
        let count = entry_count(alloc, b)?;
        if left < count {
            return Ok(true);
        }
        left -= count;
    }
    Ok(false)
}

// Whether an entry of the directory of a number stands in two of its blocks.
fn has_doubles(
    alloc: Global,
    home: &Home,
    blocks: &[Block],
    n: u32,
    slot: &Slot,
) -> Result<bool, NoMemory>
    requires limits { IsWithinLimits home.now }
    requires number { IsNumber (volume home.now blocks.now) n }
    requires runs { HasRunsInside (volume home.now blocks.now) n }
    requires told { slot.now ≡ slot_of (volume home.now blocks.now) n }
    requires sound { dir_fault (volume home.now blocks.now) n ≡ None }
    ensures { IfOk result (λ b. b ≡ has_doubles (volume home.now blocks.now) n) }
{
    match slot {
        Slot::Used(file) => {
            if !file.dir {
                return Ok(false);
            }
            let all = body(alloc, home, blocks, n)?;
            have_more(alloc, all.items(), file.entries.items().len())
        }
        Slot::Free(_) => Ok(false),
    }
}

/// The directories, by rising number, of which an entry stands in two blocks.
pub(crate) fn doubles(
    alloc: Global,
    home: &Home,
    blocks: &[Block],
    cat: &Cat,
) -> Result<Vec<u32>, NoMemory>
    requires limits { IsWithinLimits home.now }
    requires told { cat.now ≡ catalogue (volume home.now blocks.now) }
    requires runs { HasAllRunsInside (volume home.now blocks.now) }
    requires sound { HasSoundDirectories (volume home.now blocks.now) }
    ensures { IfOk result (λ ds. ds.items ≡ filter (has_doubles (volume home.now blocks.now)) (numbers (volume home.now blocks.now))) }
{
    let mut found = Vec::new(alloc);
    for (i, slot) in cat.files.items().iter().enumerate() {
        let n = i as u32 + 1;
        if has_doubles(alloc, home, blocks, n, slot)? {
            found.push(n)?;
        }
    }
    Ok(found)
}
