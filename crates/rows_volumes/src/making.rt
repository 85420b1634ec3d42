//! Fresh volumes with known bytes, and volumes that are refused.

ghost use Rattle.std.specs.Prelude.{◌≤◌};

use base_words::{Block, long_at, word_at};
use blk_drive::{Fail as FailAt, MemImage, Mirror, NoMemory};
use fx_home::{HomeFault, read_home};
use std::alloc::Global;
use std::test::Fail;
use vol_faults::{free_counts, read_whole};
use vol_init::{InitFault, init};

/// A drive of blocks of sevens, which fails at one call; none where it cannot be loaded.
fn drive(alloc: Global, count: usize, fail: FailAt) -> Result<Option<Mirror<MemImage>>, NoMemory>
    requires { count ≤ 65536 }
{
    let blocks = vec![in alloc; [7; 512]; count]?;
    let image = MemImage::new(blocks, vec![in alloc; fail]?);
    Ok(Mirror::load(alloc, image).ok())
}

/// A drive that does not fail.
fn sound(alloc: Global, count: usize) -> Result<Option<Mirror<MemImage>>, NoMemory>
    requires { count ≤ 65536 }
{
    let never = FailAt {
        call: 0,
        lands: false,
    };
    drive(alloc, count, never)
}

/// How many clusters and how many numbers are free, where the blocks can be read.
fn counts(alloc: Global, blocks: &[Block]) -> Result<Option<(u32, u32)>, NoMemory> {
    if blocks.len() < 64 || blocks.len() > 65_536 {
        return Ok(None);
    }
    match read_whole(alloc, blocks)? {
        Ok(_) => Ok(Some(free_counts(blocks))),
        Err(_) => Ok(None),
    }
}

/// A block of the drive.
fn block(m: &Mirror<MemImage>, lbn: u32) -> Block {
    if lbn < m.size() {
        *m.read(lbn)
    } else {
        [0; 512]
    }
}

/// What a volume is made of, and what is then free: clusters and numbers.
#[derive(Clone, Copy)]
struct Made {
    cluster: u32,
    files: u32,
    label: &'static [u8],
    free: (u32, u32),
}

/// Whether the volume is made on the drive, with so much free.
fn is_made(alloc: Global, m: &mut Mirror<MemImage>, made: Made) -> Result<bool, NoMemory> {
    Ok(
        init(alloc, m, made.cluster, made.files, made.label) == Ok(())
            && counts(alloc, m.all())? == Some(made.free),
    )
}

/// Whether the home block, the file headers and the bitmaps of the volume KVOL have their bytes.
fn has_known_bytes(m: &Mirror<MemImage>) -> bool {
    let home = block(m, 1);
    let index = block(m, 17);
    (word_at(&home, 58), word_at(&home, 510)) == (669, 37_818)
        && word_at(&block(m, 84), 510) == 1541
        && &index[200..204] == b"\x53\x40\x00\x00".as_slice()
        && &block(m, 18)[200..204] == b"\x03\x40\x54\x00".as_slice()
        && &index[80..92] == b"INDEXF.SYS;1".as_slice()
        && &block(m, 28)[..] == &[0; 512][..]
}

/// Whether the copies have their own place, and are otherwise sound.
fn has_copies(m: &Mirror<MemImage>) -> bool {
    let copy = block(m, 8);
    (long_at(&copy, 0), word_at(&copy, 16)) == (8, 9)
        && read_home(&copy) == Err(HomeFault::BadLayout)
        && block(m, 12) == block(m, 17)
}

/// Blocks that are no part of the volume KVOL.
const APART: [u32; 12] = [0, 2, 7, 9, 13, 15, 81, 83, 86, 87, 100, 1023];

/// Whether what is no part of the volume stays.
fn stays(m: &Mirror<MemImage>) -> bool {
    APART.iter().all(|lbn| block(m, *lbn) == [7; 512])
}

const KVOL: Made = Made {
    cluster: 4,
    files: 64,
    label: b"KVOL",
    free: (231, 53),
};

/// Whether the volume KVOL is made as it is to be, on the image too.
fn is_kvol(alloc: Global) -> Result<bool, NoMemory> {
    let Some(mut m) = sound(alloc, 1024)? else {
        return Ok(false);
    };
    if !is_made(alloc, &mut m, KVOL)? || !has_known_bytes(&m) || !has_copies(&m) || !stays(&m) {
        return Ok(false);
    }
    let image = m.into_image();
    Ok(counts(alloc, image.all())? == Some(KVOL.free))
}

#[test]
fn a_volume_has_known_bytes(rt: HostRuntime) -> Result<(), Fail> {
    assert!(rt;
        is_kvol(rt.alloc())?,
        "the volume KVOL is made with its known bytes"
    );
    Ok(())
}

/// What no volume is made of, and why.
#[derive(Clone, Copy)]
struct Refused {
    cluster: u32,
    files: u32,
    label: &'static [u8],
    fault: InitFault,
}

const REFUSED: [Refused; 9] = [
    Refused {
        cluster: 17,
        files: 31,
        label: b"LONG_LABEL_13",
        fault: InitFault::BadCluster,
    },
    Refused {
        cluster: 0,
        files: 32,
        label: b"TINY",
        fault: InitFault::BadCluster,
    },
    Refused {
        cluster: 1,
        files: 31,
        label: b"LONG_LABEL_13",
        fault: InitFault::BadFiles,
    },
    Refused {
        cluster: 1,
        files: 4097,
        label: b"TINY",
        fault: InitFault::BadFiles,
    },
    Refused {
        cluster: 16,
        files: 32,
        label: b"LONG_LABEL_13",
        fault: InitFault::BadLabel,
    },
    Refused {
        cluster: 1,
        files: 32,
        label: b"",
        fault: InitFault::BadLabel,
    },
    Refused {
        cluster: 1,
        files: 32,
        label: b"TINy",
        fault: InitFault::BadLabel,
    },
    Refused {
        cluster: 16,
        files: 32,
        label: b"TINY",
        fault: InitFault::TooSmall,
    },
    Refused {
        cluster: 1,
        files: 55,
        label: b"TINY",
        fault: InitFault::TooSmall,
    },
];

/// Whether no volume is made, and the home block's place stays as it was.
fn is_refused(alloc: Global, m: &mut Mirror<MemImage>, case: Refused) -> bool {
    init(alloc, m, case.cluster, case.files, case.label) == Err(case.fault)
        && block(m, 1) == [7; 512]
}

/// Whether a small drive refuses each of these, and then takes the volumes that fit.
fn is_small_drive(alloc: Global, refused: &[Refused], made: &[Made]) -> Result<bool, NoMemory> {
    let Some(mut m) = sound(alloc, 64)? else {
        return Ok(false);
    };
    for case in refused {
        if !is_refused(alloc, &mut m, *case) {
            return Ok(false);
        }
    }
    for case in made {
        if !is_made(alloc, &mut m, *case)? {
            return Ok(false);
        }
    }
    Ok(true)
}

const TINY: Made = Made {
    cluster: 1,
    files: 32,
    label: b"TINY",
    free: (22, 21),
};

const FULL: Made = Made {
    cluster: 1,
    files: 54,
    label: b"A-$_09ZLABEL",
    free: (0, 43),
};

#[test]
fn a_volume_is_refused_at_its_limits(rt: HostRuntime) -> Result<(), Fail> {
    assert!(rt;
        is_small_drive(rt.alloc(), &REFUSED, &[TINY, FULL])?,
        "a small drive refuses what is past a limit, and takes what fits"
    );
    Ok(())
}

const LARGE: Made = Made {
    cluster: 1,
    files: 32,
    label: b"LARGE",
    free: (4957, 21),
};

/// Whether a large volume is made, and the second block of its storage bitmap ends where the volume does.
fn is_large(alloc: Global) -> Result<bool, NoMemory> {
    let Some(mut m) = sound(alloc, 5000)? else {
        return Ok(false);
    };
    Ok(is_made(alloc, &mut m, LARGE)? && &block(&m, 39)[112..115] == b"\xff\x00\x00".as_slice())
}

#[test]
fn a_storage_bitmap_has_two_blocks(rt: HostRuntime) -> Result<(), Fail> {
    assert!(rt;
        is_large(rt.alloc())?,
        "a large volume has a storage bitmap of two blocks"
    );
    Ok(())
}

/// What is left where one call fails: the answer, whether there is a volume, and whether all blocks are the old ones.
#[derive(Clone, Copy)]
struct Left {
    answer: Result<(), InitFault>,
    is_volume: bool,
    is_old: bool,
}

fn is_left(alloc: Global, blocks: &[Block], left: Left) -> Result<bool, NoMemory> {
    let is_volume = counts(alloc, blocks)?.is_some();
    let is_old = blocks.iter().all(|b| *b == [7; 512]);
    Ok(is_volume == left.is_volume && is_old == left.is_old)
}

/// Whether this is left on the image where the drive fails so.
fn leaves(alloc: Global, fail: FailAt, left: Left) -> Result<bool, NoMemory> {
    let Some(mut m) = drive(alloc, 64, fail)? else {
        return Ok(false);
    };
    if init(alloc, &mut m, 1, 32, b"TINY") != left.answer {
        return Ok(false);
    }
    let image = m.into_image();
    is_left(alloc, image.all(), left)
}

/// The volume has 42 writes, and a load of 64 blocks has 65 calls before them.
#[test]
fn a_failed_write_leaves_no_half_volume(rt: HostRuntime) -> Result<(), Fail> {
    for write in 1..=43u64 {
        for lands in [false, true] {
            let call = 65 + write;
            let answer = if write == 43 {
                Ok(())
            } else {
                Err(InitFault::ImageFault)
            };
            let left = Left {
                answer,
                is_volume: write == 43 || (write == 42 && lands),
                is_old: write == 1 && !lands,
            };
            assert!(rt;
                leaves(rt.alloc(), FailAt { call, lands }, left)?,
                "write {write}"
            );
        }
    }
    Ok(())
}
