//! Which of the blocks that are written a block is.
ghost use Rattle.std.specs.Prelude.{◌≡◌, ◌≤◌, ◌<◌, ◌+◌, IfSome};
ghost use Rattle.std.specs.Bool.{OnTrue};
ghost use Rattle.vol_init.specs.Layouts.{IsLayout};
ghost use Rattle.vol_parts.specs.Parts.{is_among};
ghost use Rattle.vol_init.specs.Parts.{first_block, part_of, IsInside};

use crate::Layout;

/// A part of a fresh volume, behind the home block.
#[derive(Clone, Copy, Debug, PartialEq)]
pub(crate) enum Part {
    /// The copy of the home block.
    HomeCopy,
    /// The copy of the index file's header.
    HeaderCopy,
    /// The index-file bitmap: which file numbers are in use.
    Numbers,
    /// The header slot of a file number.
    Header(u32),
    /// The storage control block.
    Control,
    /// A block of the storage bitmap, counted from 0.
    Storage(u32),
    /// A block of the master file directory, counted from 0.
    Main(u32),
    /// A block of [SYSLOST], counted from 0.
    Lost(u32),
    /// A block of QUOTA.SYS, counted from 0.
    Quota(u32),
}

/// The first block of the system file of a number, where it has one.
fn first_block(layout: &Layout, n: u32) -> u32
    requires { IsLayout layout.now }
    ensures value { result ≡ first_block layout.now n }
    ensures bound { result ≤ 65920 }
{
    layout.cluster * layout.first_cluster(n)
}

/// Whether a block is one of the `n` blocks from a first one on.
fn is_among(first: u32, n: u32, lbn: u32) -> bool
    ensures value { result ≡ is_among first n lbn }
    ensures inside { OnTrue result ((first ≤ lbn) × (lbn < first + n)) }
{
    first <= lbn && lbn - first < n
}

/// Which part a block of a fresh volume is, or none where it is no part or the home block.
#[tactic(auto, unfolding(crate::specs::Parts::part_of))]
pub(crate) fn part_of(layout: &Layout, lbn: u32) -> Option<Part>
    requires { IsLayout layout.now }
    ensures value { result ≡ part_of layout.now lbn }
    ensures inside { IfSome result (IsInside layout.now) }
{
    let headers = 4 * layout.cluster + 1;
    let [control, main] = [first_block(layout, 2), first_block(layout, 4)];
    let [lost, quota] = [first_block(layout, 11), first_block(layout, 10)];
    if lbn == 2 * layout.cluster {
        Some(Part::HomeCopy)
    } else if lbn == 3 * layout.cluster {
        Some(Part::HeaderCopy)
    } else if lbn == 4 * layout.cluster {
        Some(Part::Numbers)
    } else if is_among(headers, layout.files, lbn) {
        Some(Part::Header(lbn - 4 * layout.cluster))
    } else if lbn == control {
        Some(Part::Control)
    } else if is_among(control + 1, layout.storage_blocks(), lbn) {
        Some(Part::Storage(lbn - (control + 1)))
    } else if is_among(main, layout.cluster, lbn) {
        Some(Part::Main(lbn - main))
    } else if is_among(lost, layout.cluster, lbn) {
        Some(Part::Lost(lbn - lost))
    } else if is_among(quota, layout.cluster, lbn) {
        Some(Part::Quota(lbn - quota))
    } else {
        None
    }
}
