//! Why a volume is not made.
ghost use Rattle.std.specs.Prelude.{◌≡◌, ◌≤◌, false, length, IfNone};
ghost use Rattle.std.specs.Bool.{OnTrue};
ghost use Rattle.vol_init.specs.Layouts.{IsLayout, reserved_clusters, total};
ghost use Rattle.vol_init.specs.Refusals.{is_cluster, are_files, is_label, is_too_small, refusal};

use crate::Layout;
use base_words::names::is_part;
use blk_drive::ImageFault as WriteFault;
use std::alloc::AllocError;
use thiserror::Error;

/// Why a volume was not made. Of the first four the first in this order is told.
#[derive(Debug, Clone, Copy, PartialEq, Error)]
pub enum InitFault {
    /// The cluster factor is outside 1 to 16.
    #[error("bad cluster")]
    BadCluster,
    /// The file numbers are outside 32 to 4,096.
    #[error("bad files")]
    BadFiles,
    /// The label is not 1 to 12 characters of A to Z, 0 to 9, `$`, `_` and `-`.
    #[error("bad label")]
    BadLabel,
    /// The system files need more clusters than the image has.
    #[error("too small")]
    TooSmall,
    /// Memory ran out.
    #[error("no memory")]
    NoMemory,
    /// A write of the image failed, and the image has counted it.
    #[error("image fault")]
    ImageFault,
}

impl From<WriteFault> for InitFault {
    ghost use Rattle.vol_init.specs.declared.fault.InitFault.TheVariants.{ImageFault};

    ghost from_gives = { λ _ fault. fault ≡ ImageFault };

    fn from(_fault: WriteFault) -> InitFault {
        InitFault::ImageFault
    }
}

impl From<AllocError> for InitFault {
    ghost use Rattle.vol_init.specs.declared.fault.InitFault.TheVariants.{NoMemory};

    ghost from_gives = { λ _ fault. fault ≡ NoMemory };

    fn from(_error: AllocError) -> InitFault {
        InitFault::NoMemory
    }
}

#[tactic(auto, unfolding(crate::specs::Refusals::is_cluster))]
fn is_cluster(cluster: u32) -> bool
    ensures value { result ≡ is_cluster cluster }
    ensures limits { OnTrue result ((1 ≤ cluster) × (cluster ≤ 16)) }
{
    1 <= cluster && cluster <= 16
}

#[tactic(auto, unfolding(crate::specs::Refusals::are_files))]
fn are_files(files: u32) -> bool
    ensures value { result ≡ are_files files }
    ensures limits { OnTrue result ((32 ≤ files) × (files ≤ 4096)) }
{
    32 <= files && files <= 4096
}

#[tactic(auto, unfolding(crate::specs::Refusals::is_label))]
fn is_label(label: &[u8]) -> bool
    ensures value { result ≡ is_label label.now }
    ensures short { OnTrue result (length label.now ≤ 12) }
{
    1 <= label.len() && label.len() <= 12 && is_part(label)
}

#[tactic(auto, unfolding(crate::specs::Refusals::is_too_small))]
fn is_too_small(layout: &Layout) -> bool
    requires { IsLayout layout.now }
    ensures value { result ≡ is_too_small layout.now }
    ensures room { result ≡ false → reserved_clusters layout.now ≤ total layout.now }
{
    layout.blocks / layout.cluster < layout.reserved_clusters()
}

/// Why a volume of this layout and label is not made, or none where it can be. The image has 64 to 65,536 blocks.
#[tactic(auto, unfolding(crate::specs::Refusals::refusal))]
pub(crate) fn refusal(layout: &Layout, label: &[u8]) -> Option<InitFault>
    requires low { 64 ≤ layout.now.blocks }
    requires high { layout.now.blocks ≤ 65536 }
    ensures value { result ≡ refusal layout.now label.now }
    ensures layout { IfNone result (IsLayout layout.now) }
    ensures room { IfNone result (reserved_clusters layout.now ≤ total layout.now) }
    ensures label { IfNone result (length label.now ≤ 12) }
{
    if !is_cluster(layout.cluster) {
        Some(InitFault::BadCluster)
    } else if !are_files(layout.files) {
        Some(InitFault::BadFiles)
    } else if !is_label(label) {
        Some(InitFault::BadLabel)
    } else if is_too_small(layout) {
        Some(InitFault::TooSmall)
    } else {
        None
    }
}
