//! Where the system files of a fresh volume lie.

ghost use Rattle.std.specs.Prelude.{◌≡◌, ◌<◌, ◌≤◌, ◌+◌, ◌*◌};
ghost use Rattle.vol_parts.specs.Fatal.{in_whole_clusters};
ghost use Rattle.vol_parts.specs.Parts.{storage_blocks};
ghost use Rattle.vol_init.specs.Layouts.{IsLayout, total, index_clusters, bitmap_clusters, clusters_of, first_cluster, reserved_clusters, header_of};

use fx_header::Hdr;

/// The owner of the system files, [1,1].
pub const SYSTEM_OWNER: u32 = 65_537;
/// The owner of users' files, [1,4].
pub const USER_OWNER: u32 = 65_540;

/// How many clusters so many blocks take.
fn in_whole_clusters(cluster: u32, blocks: u32) -> u32
    requires { 0 < cluster }
    ensures value { result ≡ in_whole_clusters cluster blocks }
    ensures bound { result ≤ blocks }
{
    blocks.div_ceil(cluster)
}

/// The cluster factor, the file numbers and the blocks of a volume, which tell where its system files lie when it is fresh.
#[derive(Clone, Copy, Debug, PartialEq)]
pub struct Layout {
    /// The cluster factor: blocks per cluster, 1 to 16.
    pub cluster: u32,

    /// The file numbers, 32 to 4,096.
    pub files: u32,

    /// The blocks of the volume, 64 to 65,536.
    pub blocks: u32,
}

impl Layout {
    /// The clusters of the index file: four clusters, the bitmap, and a header for each number.
    #[tactic(auto, unfolding(crate::specs::Layouts::index_clusters))]
    fn index_clusters(&self) -> u32
        requires { IsLayout self.now }
        ensures value { result ≡ index_clusters self.now }
        ensures bound { result ≤ 4101 }
    {
        (4 * self.cluster + 1 + self.files).div_ceil(self.cluster)
    }

    /// The blocks of the storage bitmap, which has a bit for each cluster of the volume.
    pub fn storage_blocks(&self) -> u32
        requires { IsLayout self.now }
        ensures value { result ≡ storage_blocks (total self.now) }
        ensures bound { result ≤ 16 }
    {
        (self.blocks / self.cluster).div_ceil(4096)
    }

    /// The clusters of BITMAP.SYS: the storage control block, and a bit for each cluster of the volume.
    #[tactic(auto, unfolding(crate::specs::Layouts::bitmap_clusters))]
    fn bitmap_clusters(&self) -> u32
        requires { IsLayout self.now }
        ensures value { result ≡ bitmap_clusters self.now }
        ensures bound { result ≤ 17 }
    {
        in_whole_clusters(self.cluster, 1 + self.storage_blocks())
    }

    /// The clusters of the system file of a number, 1 to 11.
    #[tactic(auto, unfolding(crate::specs::Layouts::clusters_of))]
    pub fn clusters_of(&self, n: u32) -> u32
        requires { IsLayout self.now }
        ensures value { result ≡ clusters_of self.now n }
        ensures bound { result ≤ 4101 }
    {
        match n {
            1 => self.index_clusters(),
            2 => self.bitmap_clusters(),
            4 | 10 | 11 => 1,
            _ => 0,
        }
    }

    /// The first cluster of the system file of a number, 1 to 11, where it has one.
    #[tactic(auto, unfolding(crate::specs::Layouts::first_cluster))]
    pub fn first_cluster(&self, n: u32) -> u32
        requires { IsLayout self.now }
        ensures value { result ≡ first_cluster self.now n }
        ensures bound { result ≤ 4120 }
    {
        let index = self.index_clusters();
        let behind = index + self.bitmap_clusters();
        match n {
            1 => 0,
            2 => index,
            4 => behind,
            11 => behind + 1,
            _ => behind + 2,
        }
    }

    /// The clusters of all system files, which are the first ones of the volume.
    pub fn reserved_clusters(&self) -> u32
        requires { IsLayout self.now }
        ensures value { result ≡ reserved_clusters self.now }
        ensures bound { result ≤ 4121 }
    {
        self.index_clusters() + self.bitmap_clusters() + 3
    }

    /// The header of the system file of a number, 1 to 11: no mark, and the end after the last block.
    #[tactic(auto, unfolding(crate::specs::Layouts::header_of))]
    pub fn header_of(&self, n: u32) -> Hdr
        requires layout { IsLayout self.now }
        requires number { n ≤ 11 }
        ensures { result ≡ header_of self.now n }
    {
        let blocks = self.cluster * self.clusters_of(n);
        Hdr {
            num: n,
            seq: if n <= 9 { n as u16 } else { 1 },
            owner: SYSTEM_OWNER,
            dir: n == 4 || n == 11,
            marked: false,
            blocks,
            mark: 0,
            end: blocks + 1,
            byte: 0,
            seg: 0,
            ext: 0,
            ext_seq: 0,
        }
    }
}
