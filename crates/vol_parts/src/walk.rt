//! The runs of a file, through all of its headers.

ghost use Rattle.fx_home.specs.Homes.{IsWithinLimits};

use crate::links::next_header;
use crate::one_slot::{SlotRuns, used_slot_runs};
use base_words::Block;
use fx_header::{Hdr, Run};
use fx_home::Home;

/// The runs of a file, in order: those of its first header, and then those of the headers to which the links lead, as far as the
/// file's blocks go.
#[derive(Debug, Drop)]
pub struct FileRuns<'a> {
    pub(crate) home: &'a Home,
    pub(crate) blocks: &'a [Block],

    // the header that is read, and its runs that are ahead
    pub(crate) header: Option<Hdr>,
    pub(crate) runs: SlotRuns<'a>,

    // how many headers may still follow, and how many blocks are ahead
    pub(crate) more: u32,
    pub(crate) left: u32,
    ghost limits: { IsWithinLimits home.now },
}

impl FileRuns<'_> {
    ghost use Rattle.std.specs.Prelude.{◌≡◌, ◌<◌, [], ◌∷◌, false, MatchOption, IsTrue};
    ghost use Rattle.vol_parts.specs.Iter.{file_runs_left, IsThrough};

    // The next run of the header that is read, as far as the file's blocks go.
    fn next_here(&mut self) -> Option<Run>
        ensures given { MatchOption result ((file_runs_left self.new ≡ file_runs_left self.old) × IsThrough self.new)
            (λ r. file_runs_left self.old ≡ r ∷ file_runs_left self.new) }
        ensures more { self.new.more ≡ self.old.more }
    {
        if self.left == 0 {
            return None;
        }
        let run = self.runs.next()?;
        let (lbn, count) = (run.lbn, run.count.min(self.left));
        self.left -= count;
        Some(Run { lbn, count })
    }

    // Goes on to the next header, if there is one and blocks are ahead.
    fn follow(&mut self) -> bool
        requires { IsThrough self.old }
        ensures went { IsTrue result → (file_runs_left self.new ≡ file_runs_left self.old) × (self.new.more < self.old.more) }
        ensures none { result ≡ false → (file_runs_left self.old ≡ []) × (file_runs_left self.new ≡ []) }
    {
        if self.left == 0 || self.more == 0 {
            return false;
        }
        let Some(header) = self.header else {
            return false;
        };
        let Some(next) = next_header(self.home, self.blocks, &header) else {
            return false;
        };
        self.runs = used_slot_runs(self.home, self.blocks, header.ext);
        self.header = Some(next);
        self.more -= 1;
        true
    }
}

impl Iterator for FileRuns<'_> {
    ghost use Rattle.std.specs.Iterator.{YieldsFirst, item_count};
    ghost use Rattle.vol_parts.specs.Iter.{file_runs_left};

    type Item = Run;

    ghost next_gives = { YieldsFirst file_runs_left };

    ghost remaining = { item_count file_runs_left };

    fn next(&mut self) -> Option<Run> {
        'headers: loop {
            if let Some(run) = self.next_here() {
                return Some(run);
            }
            if !self.follow() {
                return None;
            }
        }
    }
}
