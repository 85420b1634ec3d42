//! The listing of a fresh volume.

use plain_cat::NoMemory;
use rows_sample::fresh_catalogue;
use std::alloc::Global;
use std::str;
use std::test::Fail;
use vol_show::list;

/// The lines of the fresh volume.
const LINES: &[u8] = b"[000000]000000.DIR;1 (4,4,0) [1,1] 4 blocks, directory\n\
[000000]BACKUP.SYS;1 (8,8,0) [1,1] 0 blocks, 0 bytes\n\
[000000]BADBLK.SYS;1 (3,3,0) [1,1] 0 blocks, 0 bytes\n\
[000000]BADLOG.SYS;1 (9,9,0) [1,1] 0 blocks, 0 bytes\n\
[000000]BITMAP.SYS;1 (2,2,0) [1,1] 4 blocks, 2048 bytes\n\
[000000]CONTIN.SYS;1 (7,7,0) [1,1] 0 blocks, 0 bytes\n\
[000000]CORIMG.SYS;1 (5,5,0) [1,1] 0 blocks, 0 bytes\n\
[000000]INDEXF.SYS;1 (1,1,0) [1,1] 84 blocks, 43008 bytes\n\
[000000]QUOTA.SYS;1 (10,1,0) [1,1] 4 blocks, 2048 bytes\n\
[000000]SYSLOST.DIR;1 (11,1,0) [1,1] 4 blocks, directory\n\
[000000]VOLSET.SYS;1 (6,6,0) [1,1] 0 blocks, 0 bytes\n\
11 entries, 11 files, 100 blocks, 47104 bytes, 0 without a name\n";

/// The listing of the fresh volume; none where its catalogue is too large for one.
fn listed(alloc: Global) -> Result<Option<Vec<u8>>, NoMemory> {
    let cat = fresh_catalogue(alloc)?;
    if cat.factor > 65_535 || cat.files.items().len() > 4096 {
        return Ok(None);
    }
    Ok(Some(list(alloc, &cat)?))
}

#[test]
fn a_fresh_volume_is_listed(rt: HostRuntime) -> Result<(), Fail> {
    let Some(text) = listed(rt.alloc())? else {
        assert!(rt; false, "the catalogue is small");
        return Ok(());
    };
    let text = str::from_utf8(text.as_slice()).unwrap_or("");
    assert!(rt; text.as_bytes() == LINES, "{text}");
    Ok(())
}
