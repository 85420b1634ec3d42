//! Where the system files of a fresh volume lie, and what is free beside them.

use vol_init::{Layout, text_of};

/// The numbers of the system files, as they lie one behind the other.
const IN_ORDER: [u32; 5] = [1, 2, 4, 11, 10];

#[test]
fn system_files_lie_one_behind_the_other(rt: HostRuntime) {
    let layout = Layout {
        cluster: 4,
        files: 64,
        blocks: 1024,
    };
    let sizes = IN_ORDER.map(|n| layout.clusters_of(n));
    assert_eq!(rt; sizes, [21, 1, 1, 1, 1]);
    let firsts = IN_ORDER.map(|n| layout.first_cluster(n));
    assert_eq!(rt; firsts, [0, 21, 22, 23, 24]);
    assert_eq!(rt; layout.clusters_of(9), 0);
    assert_eq!(rt; layout.storage_blocks(), 1);
    assert_eq!(rt; layout.reserved_clusters(), 25);
    let quota = layout.header_of(10);
    assert_eq!(rt;
        [quota.num, u32::from(quota.seq), quota.blocks, quota.end],
        [10, 1, 4, 5]
    );
    let lost = layout.header_of(11);
    assert_eq!(rt; [lost.dir, lost.marked], [true, false]);
    assert_eq!(rt; text_of(11), b"SYSLOST.DIR;1".as_slice());
}

#[test]
fn clusters_of_one_block_are_counted(rt: HostRuntime) {
    let layout = Layout {
        cluster: 1,
        files: 32,
        blocks: 64,
    };
    assert_eq!(rt; layout.clusters_of(1), 37);
    assert_eq!(rt; layout.clusters_of(2), 2);
    assert_eq!(rt; layout.reserved_clusters(), 42);
}
