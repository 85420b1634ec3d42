//! Where the parts of a volume lie.

ghost use Rattle.std.specs.Prelude.{◌≡◌, ◌/◌};
ghost use Rattle.vol_parts.specs.Parts.{IsGeometry, part_of, storage_blocks};

/// Where the parts of a volume lie that every volume has. All are in blocks.
#[derive(Clone, Copy, Debug, PartialEq)]
pub struct Geometry {
    /// The blocks of the volume, 64 to 65,536.
    pub blocks: u32,

    /// The cluster factor: blocks per cluster, 1 to 16.
    pub cluster: u32,

    /// The file numbers, 32 to 4,096.
    pub files: u32,

    /// The LBN of BITMAP.SYS: its first block is the storage control block, and the storage bitmap follows.
    pub bitmap_lbn: u32,

    /// The LBN of QUOTA.SYS, which has one cluster.
    pub quota_lbn: u32,
}

/// A part of a volume that every volume has, and that commands write.
#[derive(Clone, Copy, Debug, PartialEq)]
pub enum Part {
    /// The header slot of a file number.
    Header(u32),

    /// The index-file bitmap: which file numbers are in use.
    IndexBitmap,

    /// A block of the storage bitmap, counted from 0: which clusters are free.
    Storage(u32),

    /// A block of QUOTA.SYS, counted from 0.
    Quota(u32),
}

// How many blocks the storage bitmap has.
fn storage_blocks(g: &Geometry) -> u32
    requires { IsGeometry g.now }
    ensures { result ≡ storage_blocks (g.now.blocks / g.now.cluster) }
{
    (g.blocks / g.cluster).div_ceil(4096)
}

/// Which part a block is, or none of these. The geometry is within the limits of a volume, and BITMAP.SYS and QUOTA.SYS
/// begin inside it.
#[tactic(auto, unfolding(crate::specs::Parts::part_of))]
pub fn guard(g: &Geometry, lbn: u32) -> Option<Part>
    requires { IsGeometry g.now }
    ensures { result ≡ part_of g.now lbn }
{
    let index = 4 * g.cluster;
    let storage = g.bitmap_lbn + 1;
    if lbn == index {
        return Some(Part::IndexBitmap);
    }
    if index < lbn && lbn - index <= g.files {
        return Some(Part::Header(lbn - index));
    }
    if storage <= lbn && lbn - storage < storage_blocks(g) {
        return Some(Part::Storage(lbn - storage));
    }
    if g.quota_lbn <= lbn && lbn - g.quota_lbn < g.cluster {
        return Some(Part::Quota(lbn - g.quota_lbn));
    }
    None
}
