//! The runs that one header lists.

ghost use Rattle.std.specs.Prelude.{◌≡◌, []};
ghost use Rattle.fx_home.specs.Homes.{IsWithinLimits};
ghost use Rattle.vol_parts.specs.Conditions.{IsUsedSlot};
ghost use Rattle.vol_parts.specs.Volumes.{volume, IsNumber, listed_in};
ghost use Rattle.vol_parts.specs.Iter.{slot_runs_left};

use crate::heads::used_slot;
use base_words::Block;
use fx_header::{Run, RunIter, runs};
use fx_home::{Home, slot_lbn};

/// The runs that one header lists, in order.
#[derive(Debug, Clone, Drop)]
pub struct SlotRuns<'a> {
    header: Option<RunIter<'a>>,
}

impl Iterator for SlotRuns<'_> {
    ghost use Rattle.std.specs.Iterator.{YieldsFirst, item_count};
    ghost use Rattle.vol_parts.specs.Iter.{slot_runs_left};

    type Item = Run;

    ghost next_gives = { YieldsFirst slot_runs_left };

    ghost remaining = { item_count slot_runs_left };

    fn next(&mut self) -> Option<Run> {
        match &mut self.header {
            Some(header) => header.next(),
            None => None,
        }
    }
}

// No run.
pub(crate) fn no_runs<'a>() -> SlotRuns<'a>
    ensures { slot_runs_left result ≡ [] }
{
    SlotRuns { header: None }
}

// The runs that the header in a slot lists, which is used.
pub(crate) fn used_slot_runs<'a>(home: &Home, blocks: &'a [Block], n: u32) -> SlotRuns<'a>
    requires limits { IsWithinLimits home.now }
    requires number { IsNumber (volume home.now blocks.now) n }
    requires used { IsUsedSlot (volume home.now blocks.now) n }
    ensures { slot_runs_left result ≡ listed_in (volume home.now blocks.now) n }
{
    SlotRuns {
        header: Some(runs(&blocks[slot_lbn(home, n) as usize])),
    }
}

/// The runs that the header in the slot of a number lists, in order. A slot that is not used lists none.
pub fn slot_runs<'a>(home: &Home, blocks: &'a [Block], n: u32) -> SlotRuns<'a>
    requires limits { IsWithinLimits home.now }
    requires number { IsNumber (volume home.now blocks.now) n }
    ensures { slot_runs_left result ≡ listed_in (volume home.now blocks.now) n }
{
    match used_slot(home, blocks, n) {
        Some(_) => used_slot_runs(home, blocks, n),
        None => no_runs(),
    }
}
