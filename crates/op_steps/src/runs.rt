//! The runs of a file, by all of its headers that were seen.

ghost use Rattle.std.specs.Prelude.{◌≡◌, ◌≤◌, ◌<◌, ◌-◌, slice_get};
ghost use Rattle.fx_header.specs.Pointers.{lbns_in};
ghost use Rattle.op_law.specs.SeenFiles.{runs_listed};
ghost use Rattle.op_steps.specs.Iter.{header_left, seen_left};
ghost use Rattle.op_steps.specs.Seeing.{file_runs, IsReadable};

use crate::FileSeen;
use base_words::Block;
use fx_header::{Run, RunIter, Slot, read_header, runs};

/// The runs that one header lists, in order.
#[derive(Drop)]
pub struct HeaderRuns<'a> {
    runs: Option<RunIter<'a>>,
}

impl Iterator for HeaderRuns<'_> {
    ghost use Rattle.std.specs.Iterator.{YieldsFirst, item_count};
    ghost use Rattle.op_steps.specs.Iter.{header_left};

    type Item = Run;

    ghost next_gives = { YieldsFirst header_left };

    ghost remaining = { item_count header_left };

    fn next(&mut self) -> Option<Run> {
        match &mut self.runs {
            Some(runs) => runs.next(),
            None => None,
        }
    }
}

// The runs that a header lists, be it a file's first one or another. A slot that is not used lists none.
fn header_runs(b: &Block) -> HeaderRuns<'_>
    ensures { header_left result ≡ runs_listed b.now }
{
    match read_header(b) {
        Ok(Slot::Used(_)) => HeaderRuns {
            runs: Some(runs(b)),
        },
        Ok(Slot::Free(_)) => HeaderRuns { runs: None },
        Err(_) => HeaderRuns { runs: None },
    }
}

/// The runs that the headers of a file list, in order.
#[derive(Drop)]
pub struct ListedRuns<'a> {
    header: HeaderRuns<'a>,
    rest: &'a [(u32, Block)],
}

impl Iterator for ListedRuns<'_> {
    ghost use Rattle.std.specs.Iterator.{YieldsFirst, item_count};
    ghost use Rattle.op_steps.specs.Iter.{listed_left};

    type Item = Run;

    ghost next_gives = { YieldsFirst listed_left };

    ghost remaining = { item_count listed_left };

    fn next(&mut self) -> Option<Run> {
        loop {
            if let Some(run) = self.header.next() {
                return Some(run);
            }
            match self.rest {
                [] => return None,
                [(_, block), rest @ ..] => {
                    self.header = header_runs(block);
                    self.rest = rest;
                }
            }
        }
    }
}

/// The runs of a file, in order: those that its headers list, as far as its blocks go.
#[derive(Drop)]
pub struct SeenRuns<'a> {
    blocks: u32,
    listed: ListedRuns<'a>,
}

impl Iterator for SeenRuns<'_> {
    ghost use Rattle.std.specs.Iterator.{YieldsFirst, item_count};
    ghost use Rattle.op_steps.specs.Iter.{seen_left};

    type Item = Run;

    ghost next_gives = { YieldsFirst seen_left };

    ghost remaining = { item_count seen_left };

    fn next(&mut self) -> Option<Run> {
        if self.blocks == 0 {
            return None;
        }
        let run = self.listed.next()?;
        let count = run.count.min(self.blocks);
        self.blocks -= count;
        Some(Run {
            lbn: run.lbn,
            count,
        })
    }
}

/// The runs of a file, in order, by all of its headers that were seen.
pub fn file_runs<'a>(f: &FileSeen<'a>) -> SeenRuns<'a>
    ensures { seen_left result ≡ file_runs f.now }
{
    SeenRuns {
        blocks: f.fields.blocks,
        listed: ListedRuns {
            header: header_runs(f.head),
            rest: f.rest,
        },
    }
}

/// The LBN of a file's block, which counts from 0, or none where the file has fewer.
pub fn file_lbn(f: &FileSeen<'_>, at: usize) -> Option<u32>
    requires { IsReadable f.now }
    ensures { result ≡ slice_get (lbns_in (file_runs f.now)) at }
{
    let mut left = at;
    for run in file_runs(f) {
        let count = run.count as usize;
        if left < count {
            return Some(run.lbn + left as u32);
        }
        left -= count;
    }
    None
}
