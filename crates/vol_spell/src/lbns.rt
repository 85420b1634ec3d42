//! Where the blocks of a file lie.
ghost use Rattle.std.specs.Prelude.{◌≡◌, ◌≤◌, ◌+◌, ◌++◌, true, IfOk, OnOk, length};
ghost use Rattle.std.specs.List.{range_with_len};
ghost use Rattle.fx_home.specs.Homes.{IsWithinLimits};
ghost use Rattle.fx_header.specs.Pointers.{lbns_in};
ghost use Rattle.vol_faults.specs.Conditions.{IsSize};
ghost use Rattle.vol_parts.specs.Conditions.{HasRunsInside};
ghost use Rattle.vol_parts.specs.Findings.{IsReadable};
ghost use Rattle.vol_parts.specs.Volumes.{volume, IsNumber, runs};
ghost use Rattle.vol_spell.specs.Lbns.{is_file, lbns_at};

use base_words::Block;
use fx_header::Run;
use fx_home::{Home, read_home};
use plain_cat::NoMemory;
use std::alloc::Global;
use std::marker::Model;
use vol_parts::{fields, file_runs};

/// A list of LBNs.
#[derive(Drop)]
pub struct LbnList {
    list: Vec<u32>,
}

impl Model for LbnList {
    ghost use Rattle.std.specs.Prelude.{List, ℕ};

    ghost Value = { List ℕ };

    ghost view = { λ l. l.list.items };
}

impl LbnList {
    /// The LBNs, in order.
    pub fn items(&self) -> &[u32]
        ensures { result.now ≡ self.now }
    {
        self.list.as_slice()
    }
}

// Whether a file in use has this number.
#[tactic(auto, unfolding(crate::specs::Lbns::is_file))]
fn is_file(home: &Home, blocks: &[Block], n: u32) -> bool
    requires { IsWithinLimits home.now }
    ensures value { result ≡ is_file (volume home.now blocks.now) n }
    ensures number { result ≡ true → IsNumber (volume home.now blocks.now) n }
{
    if n == 0 || n > home.files {
        return false;
    }
    fields(home, blocks, n).is_some()
}

// Adds the LBNs of the blocks of a run.
fn push_run(list: &mut Vec<u32>, run: Run) -> Result<(), NoMemory>
    requires { run.lbn + run.count ≤ 65536 }
    ensures { OnOk result (list.new.items ≡ list.old.items ++ range_with_len run.lbn run.count) }
{
    for i in 0..run.count {
        list.push(run.lbn + i)?;
    }
    Ok(())
}

// The LBNs of the blocks of all runs of a file.
fn runs_lbns(alloc: Global, home: &Home, blocks: &[Block], n: u32) -> Result<LbnList, NoMemory>
    requires size { IsSize (length blocks.now) }
    requires limits { IsWithinLimits home.now }
    requires number { IsNumber (volume home.now blocks.now) n }
    requires runs { HasRunsInside (volume home.now blocks.now) n }
    ensures { IfOk result (λ l. l ≡ lbns_in (runs (volume home.now blocks.now) n)) }
{
    let mut list = Vec::new(alloc);
    for run in file_runs(home, blocks, n) {
        push_run(&mut list, run)?;
    }
    Ok(LbnList { list })
}

/// The LBNs of the blocks of the file of a number, in the order of the file, or `None` where no file in use has this number.
///
/// There are 64 to 65,536 blocks, and the volume can be read: no fatal finding holds of it, but that [SYSLOST] may lack room for a
/// lost file. An error says that memory ran out.
pub fn file_lbns(alloc: Global, blocks: &[Block], n: u32) -> Result<Option<LbnList>, NoMemory>
    requires size { IsSize (length blocks.now) }
    requires readable { IsReadable blocks.now }
    ensures { IfOk result (λ found. found ≡ lbns_at blocks.now n) }
{
    let Ok(home) = read_home(&blocks[1]) else {
        return Ok(None);
    };
    if !is_file(&home, blocks, n) {
        return Ok(None);
    }
    Ok(Some(runs_lbns(alloc, &home, blocks, n)?))
}
