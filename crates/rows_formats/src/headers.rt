//! File headers with known bytes: fields, pointers of each format, and the first fault.

ghost use Rattle.std.specs.Prelude.{◌≤◌, length, IsTrue, ◌≡◌, false};
ghost use Rattle.fx_header.specs.Pointers.{AreRuns, blocks_in};

use base_words::{Block, put_bytes, put_long, put_word, set_sum};
use fx_header::{
    Hdr, HeaderFault, Run, Slot, clear_contig, free_slot, new_header, read_header, runs,
    set_blocks, set_end, set_link, set_map, set_mark, set_marked, set_runs,
};
use std::test::Fail;

/// The header of the master file directory of a small volume, (4,4,0), with these retrieval pointers and blocks.
fn header(map: &[u8], blocks: u16) -> Block
    requires { length map.now ≤ 200 }
{
    let mut b = [0; 512];
    put_bytes(&mut b, 0, &[40, 100, 255, 255]);
    put_word(&mut b, 6, 513);
    put_long(&mut b, 8, 0x0004_0004);
    put_word(&mut b, 26, blocks);
    put_word(&mut b, 30, blocks.wrapping_add(1));
    put_long(&mut b, 52, 0x2000);
    put_bytes(&mut b, 58, &[(map.len() / 2) as u8]);
    put_long(&mut b, 60, 65537);
    put_bytes(&mut b, 200, map);
    set_sum(&mut b);
    b
}

#[test]
fn a_directory_reads(rt: HostRuntime) {
    let b = header(&[0x03, 0x40, 0x58, 0x00], 4);
    let directory = Hdr {
        num: 4,
        seq: 4,
        owner: 65537,
        dir: true,
        marked: false,
        blocks: 4,
        mark: 0,
        end: 5,
        byte: 0,
        seg: 0,
        ext: 0,
        ext_seq: 0,
    };
    assert_eq!(rt; read_header(&b), Ok(Slot::Used(directory)));
}

#[test]
fn a_slot_without_a_number_is_free(rt: HostRuntime) {
    let mut b = [0xee; 512];
    put_word(&mut b, 8, 0);
    put_bytes(&mut b, 13, &[0]);
    assert_eq!(rt; read_header(&b), Ok(Slot::Free(0xeeee)));
    put_bytes(&mut b, 13, &[1]);
    assert_eq!(rt; read_header(&b), Err(HeaderFault::BadSum));
}

#[test]
fn pointers_read(rt: HostRuntime) -> Result<(), Fail> {
    for (map, lbn, count) in [
        ([0x53, 0x40, 0x00, 0x00], 0, 84),
        ([0x03, 0x40, 0x54, 0x00], 84, 4),
        ([0x0b, 0x40, 0x64, 0x00], 100, 12),
    ] {
        let b = header(&map, count);
        let Ok(Slot::Used(_)) = read_header(&b) else {
            return Err("no header".into());
        };
        let read: Vec<Run> = runs(&b).collect(rt.alloc())?;
        assert_eq!(rt;
            read.as_slice(),
            [Run {
                lbn,
                count: u32::from(count)
            }]
            .as_slice()
        );
    }
    Ok(())
}

/// A pointer of each format: a placement, LBN 65,541 with 3 blocks, a placement, LBN 16,909,060 with 16,384 blocks, and
/// LBN 2,147,483,655 with 65,539.
const FORMATS: [u8; 22] = [
    0x11, 0x22, 0x02, 0x41, 0x05, 0x00, 0x00, 0x00, 0xff, 0xbf, 0x04, 0x03, 0x02, 0x01, 0x01, 0xc0,
    0x02, 0x00, 0x07, 0x00, 0x00, 0x80,
];

#[test]
fn each_format_reads(rt: HostRuntime) -> Result<(), Fail> {
    let mut b = header(&FORMATS, 0);
    put_word(&mut b, 24, 1);
    put_word(&mut b, 26, 16390);
    set_sum(&mut b);
    let Ok(Slot::Used(_)) = read_header(&b) else {
        return Err("no header".into());
    };
    let read: Vec<Run> = runs(&b).collect(rt.alloc())?;
    let expected = [
        Run {
            lbn: 65541,
            count: 3,
        },
        Run {
            lbn: 16909060,
            count: 16384,
        },
        Run {
            lbn: 2147483655,
            count: 65539,
        },
    ];
    assert_eq!(rt; read.as_slice(), expected.as_slice());
    Ok(())
}

/// One byte that is wrong, for each test but that of the sum, in the order of the tests.
const WRONG: [(usize, u8, HeaderFault); 6] = [
    (7, 1, HeaderFault::BadLevel),
    (1, 39, HeaderFault::BadOffsets),
    (12, 1, HeaderFault::BadRvn),
    (4, 16, HeaderFault::BadExtension),
    (58, 1, HeaderFault::BadMap),
    (30, 6, HeaderFault::BadEnd),
];

#[test]
fn the_first_fault_is_told(rt: HostRuntime) {
    for (i, (first, wrong, fault)) in WRONG.iter().enumerate() {
        for (second, also_wrong, _) in WRONG.iter().skip(i) {
            let mut b = header(&[0x03, 0x40, 0x58, 0x00], 4);
            for (place, value) in [(*first, *wrong), (*second, *also_wrong)] {
                if let Some(byte) = b.get_mut(place) {
                    *byte = value;
                }
            }
            set_sum(&mut b);
            assert_eq!(rt; read_header(&b), Err(*fault));
            b[511] ^= 1;
            assert_eq!(rt; read_header(&b), Err(HeaderFault::BadSum));
        }
    }
}

/// One byte, and whether the header is still sound with it, or else the fault: the limits of each test.
const LIMITS: [(usize, u8, Option<HeaderFault>); 20] = [
    (6, 7, None),
    (0, 39, Some(HeaderFault::BadOffsets)),
    (0, 100, None),
    (0, 101, Some(HeaderFault::BadOffsets)),
    (2, 254, None),
    (2, 253, Some(HeaderFault::BadOffsets)),
    (3, 254, Some(HeaderFault::BadOffsets)),
    (4, 15, None),
    (4, 16, Some(HeaderFault::BadExtension)),
    (5, 1, Some(HeaderFault::BadExtension)),
    (14, 13, None),
    (19, 1, None),
    (58, 155, None),
    (58, 156, Some(HeaderFault::BadMap)),
    (26, 5, None),
    (26, 3, Some(HeaderFault::BadEnd)),
    (30, 6, Some(HeaderFault::BadEnd)),
    (33, 2, Some(HeaderFault::BadEnd)),
    (76, 5, None),
    (76, 6, Some(HeaderFault::BadEnd)),
];

#[test]
fn the_limits_are_exact(rt: HostRuntime) {
    for (place, value, fault) in &LIMITS {
        let mut b = header(&[0x03, 0x40, 0x58, 0x00], 4);
        if let Some(byte) = b.get_mut(*place) {
            *byte = *value;
        }
        set_sum(&mut b);
        assert_eq!(rt; read_header(&b).err(), *fault, "byte {place}");
    }
}

/// Whether these runs can be written into a header.
fn are_runs(runs: &[Run]) -> bool
    ensures runs { IsTrue result → AreRuns runs.now }
    ensures blocks { IsTrue result → blocks_in runs.now ≤ 65536 }
{
    let mut left = 65536;
    for run in runs {
        if run.count == 0 || left < run.count || 65536 - run.count < run.lbn {
            return false;
        }
        left -= run.count;
    }
    true
}

/// The file (131,587,7) of 5 blocks in the directory (66,1,0), and its name.
fn file(blocks: u32) -> Hdr
    ensures { result ≡ record { num = 131587; seq = 7; owner = 65540; dir = false; marked = false; blocks = blocks; mark = 1; end = 1; byte = 0; seg = 0; ext = 0; ext_seq = 0 } }
{
    Hdr {
        num: 0x02_0203,
        seq: 7,
        owner: 65540,
        dir: false,
        marked: false,
        blocks,
        mark: 1,
        end: 1,
        byte: 0,
        seg: 0,
        ext: 0,
        ext_seq: 0,
    }
}

const LONG_NAME: &[u8] = b"ABCDEFGHIJKLMNOPQRSTUVWXYZ0123456789.DAT;32767";

#[test]
fn a_new_header_has_its_fields_and_its_name(rt: HostRuntime) {
    let b = new_header(&file(5), LONG_NAME, (0x01_0042, 1));
    let front = [40, 100, 255, 255, 0, 0, 1, 2, 3, 2, 7, 0, 0, 2];
    assert_eq!(rt; &b[..14], front.as_slice());
    assert_eq!(rt; &b[24..34], [0, 0, 5, 0, 0, 0, 1, 0, 0, 0].as_slice());
    let owner = [
        4, 0, 1, 0, 0, 0, 0x42, 0, 1, 0, 0, 1, 0, 0, 0, 0, 1, 0, 0, 0,
    ];
    assert_eq!(rt; &b[60..80], owner.as_slice());
    assert_eq!(rt; &b[80..100], b"ABCDEFGHIJKLMNOPQRST".as_slice());
    assert_eq!(rt; &b[100..134], [0; 34].as_slice());
    assert_eq!(rt; &b[134..161], b"UVWXYZ0123456789.DAT;32767 ".as_slice());
}

#[test]
fn a_header_reads_back_with_its_runs(rt: HostRuntime) -> Result<(), Fail> {
    let mut b = new_header(&file(33287), b"A.TXT;1", (4, 4));
    let given = [
        (0, 256),
        (300, 257),
        (1000, 16384),
        (20000, 16385),
        (84, 4),
        (88, 1),
    ]
    .map(|(lbn, count)| Run { lbn, count });
    if !are_runs(&given) {
        return Err("no runs".into());
    }
    assert!(rt;
        set_runs(&mut b, &given),
        "six runs have room in the map area"
    );
    let words = [
        0xff, 0x40, 0x00, 0x00, 0x00, 0x81, 0x2c, 0x01, 0x00, 0x00, 0xff, 0xbf, 0xe8, 0x03, 0x00,
        0x00, 0x00, 0xc0, 0x00, 0x40, 0x20, 0x4e, 0x00, 0x00, 0x04, 0x40, 0x54, 0x00, 0x00, 0x00,
    ];
    assert_eq!(rt; &b[200..230], words.as_slice());
    assert_eq!(rt; b[58], 14);
    assert_eq!(rt; read_header(&b), Ok(Slot::Used(file(33287))));
    Ok(())
}

#[test]
fn seventy_seven_clusters_have_room(rt: HostRuntime) -> Result<(), Fail> {
    let mut b = new_header(&file(1232), b"A.TXT;1", (4, 4));
    let mut clusters = [Run { lbn: 0, count: 16 }; 78];
    for (i, run) in clusters.iter_mut().enumerate() {
        run.lbn = 32 * i as u32;
    }
    let Some((_, fitting)) = clusters.split_last() else {
        return Err("no clusters".into());
    };
    if !are_runs(&clusters) || !are_runs(fitting) {
        return Err("no runs".into());
    }
    let empty = b;
    assert!(rt;
        !set_runs(&mut b, &clusters),
        "78 runs have no room in the map area"
    );
    assert!(rt;
        b == empty,
        "the header stays as it was where its runs have no room"
    );
    assert!(rt;
        set_runs(&mut b, fitting),
        "77 runs have room in the map area"
    );
    assert_eq!(rt; b[58], 154);
    assert_eq!(rt; read_header(&b), Ok(Slot::Used(file(1232))));
    Ok(())
}

#[test]
fn setters_change_their_field(rt: HostRuntime) {
    let mut b = header(&[0x03, 0x40, 0x58, 0x00], 4);
    let Ok(Slot::Used(h)) = read_header(&b) else {
        return;
    };
    put_long(&mut b, 52, 0x2080);
    clear_contig(&mut b);
    assert_eq!(rt; &b[52..56], [0x00, 0x20, 0x00, 0x00].as_slice());
    assert_eq!(rt; read_header(&b), Ok(Slot::Used(h)));
    set_marked(&mut b);
    assert_eq!(rt; read_header(&b), Ok(Slot::Used(Hdr { marked: true, ..h })));
    set_mark(&mut b, 3);
    assert_eq!(rt;
        read_header(&b),
        Ok(Slot::Used(Hdr {
            marked: true,
            mark: 3,
            ..h
        }))
    );
    set_end(&mut b, 2, 17);
    assert_eq!(rt;
        read_header(&b),
        Ok(Slot::Used(Hdr {
            marked: true,
            mark: 3,
            end: 2,
            byte: 17,
            ..h
        }))
    );
    assert_eq!(rt; read_header(&free_slot(65535)), Ok(Slot::Free(65535)));
}

/// The number and the sequence number of a next header, and the bytes that say so.
const LINKS: [(u32, u16, [u8; 6]); 4] = [
    (0, 0, [0, 0, 0, 0, 0, 0]),
    (13, 0, [13, 0, 0, 0, 0, 0]),
    (0x02_0203, 7, [3, 2, 7, 0, 0, 2]),
    (0xff_ffff, 65535, [255, 255, 255, 255, 0, 255]),
];

#[test]
fn a_link_has_its_bytes_alone(rt: HostRuntime) {
    let plain = header(&[0x03, 0x40, 0x58, 0x00], 4);
    for (num, seq, bytes) in &LINKS {
        let mut b = plain;
        b[18] = 5;
        set_link(&mut b, (*num).min(0xff_ffff), *seq);
        assert_eq!(rt; &b[14..20], bytes.as_slice());
        set_link(&mut b, 0, 0);
        assert!(rt; b == plain, "all other bytes stay");
    }
}

/// The blocks of a file, the bytes that say so, and whether an end of file in block 5 is within.
const BLOCKS: [(u32, [u8; 4], bool); 5] = [
    (0, [0, 0, 0, 0], false),
    (3, [0, 0, 3, 0], false),
    (5, [0, 0, 5, 0], true),
    (0x01_0005, [1, 0, 5, 0], true),
    (0xffff_ffff, [255, 255, 255, 255], true),
];

#[test]
fn blocks_have_their_bytes_alone(rt: HostRuntime) {
    let plain = header(&[0x03, 0x40, 0x58, 0x00], 4);
    let Ok(Slot::Used(h)) = read_header(&plain) else {
        return;
    };
    for (blocks, bytes, within) in &BLOCKS {
        let mut b = plain;
        set_blocks(&mut b, *blocks);
        assert_eq!(rt; &b[24..28], bytes.as_slice());
        let expected = if *within {
            Ok(Slot::Used(Hdr {
                blocks: *blocks,
                ..h
            }))
        } else {
            Err(HeaderFault::BadEnd)
        };
        assert_eq!(rt; read_header(&b), expected);
        set_blocks(&mut b, 4);
        assert!(rt; b == plain, "all other bytes stay");
    }
}

#[test]
fn a_map_leaves_the_blocks(rt: HostRuntime) -> Result<(), Fail> {
    let mut b = header(&[0x03, 0x40, 0x58, 0x00], 4);
    let Ok(Slot::Used(h)) = read_header(&b) else {
        return Err("no header".into());
    };
    let given = [(50, 3), (53, 1)].map(|(lbn, count)| Run { lbn, count });
    if !are_runs(&given) {
        return Err("no runs".into());
    }
    assert!(rt; set_map(&mut b, &given), "one pointer has room");
    assert_eq!(rt; &b[200..204], [0x03, 0x40, 0x32, 0x00].as_slice());
    assert_eq!(rt; read_header(&b), Ok(Slot::Used(h)));
    Ok(())
}

#[test]
fn a_map_of_fewer_blocks_leaves_the_blocks(rt: HostRuntime) -> Result<(), Fail> {
    let plain = header(&[0x03, 0x40, 0x58, 0x00], 4);
    let Ok(Slot::Used(h)) = read_header(&plain) else {
        return Err("no header".into());
    };
    let given = [Run { lbn: 88, count: 3 }];
    if !are_runs(&given) {
        return Err("no runs".into());
    }
    let mut b = plain;
    assert!(rt; set_map(&mut b, &given), "one pointer has room");
    assert_eq!(rt; &b[24..28], [0, 0, 4, 0].as_slice());
    assert_eq!(rt; read_header(&b), Ok(Slot::Used(h)));
    Ok(())
}

#[test]
fn a_map_without_room_changes_nothing(rt: HostRuntime) -> Result<(), Fail> {
    let mut clusters = [Run { lbn: 0, count: 16 }; 78];
    for (i, run) in clusters.iter_mut().enumerate() {
        run.lbn = 32 * i as u32;
    }
    if !are_runs(&clusters) {
        return Err("no runs".into());
    }
    let empty = new_header(&file(1232), b"A.TXT;1", (4, 4));
    let mut b = empty;
    assert!(rt; !set_map(&mut b, &clusters), "78 runs have no room");
    assert!(rt; b == empty, "the header stays as it was");
    Ok(())
}

/// The second header (13,0,0) of the file (12,7,0), which names (65550,3,0) as the third one.
fn second() -> Hdr
    ensures { result ≡ record { num = 13; seq = 0; owner = 65540; dir = false; marked = false; blocks = 0; mark = 0; end = 0; byte = 0; seg = 1; ext = 65550; ext_seq = 3 } }
{
    Hdr {
        num: 13,
        seq: 0,
        owner: 65540,
        dir: false,
        marked: false,
        blocks: 0,
        mark: 0,
        end: 0,
        byte: 0,
        seg: 1,
        ext: 0x01_000e,
        ext_seq: 3,
    }
}

#[test]
fn an_extension_header_has_its_place_and_the_next_one(rt: HostRuntime) -> Result<(), Fail> {
    let mut b = new_header(&second(), b"", (12, 7));
    let front = [40, 100, 255, 255, 1, 0, 1, 2, 13, 0, 0, 0, 0, 0];
    assert_eq!(rt; &b[..14], front.as_slice());
    assert_eq!(rt; &b[14..20], [14, 0, 3, 0, 0, 1].as_slice());
    assert_eq!(rt; &b[52..56], [0; 4].as_slice());
    assert_eq!(rt; &b[60..64], [4, 0, 1, 0].as_slice());
    assert_eq!(rt; &b[66..72], [12, 0, 7, 0, 0, 0].as_slice());
    assert_eq!(rt; &b[72..80], [0; 8].as_slice());
    assert_eq!(rt; &b[80..100], [b' '; 20].as_slice());
    assert_eq!(rt; &b[134..200], [b' '; 66].as_slice());
    assert_eq!(rt; read_header(&b), Ok(Slot::Used(second())));
    let given = [Run { lbn: 100, count: 4 }];
    if !are_runs(&given) {
        return Err("no runs".into());
    }
    assert!(rt; set_map(&mut b, &given), "one pointer has room");
    assert_eq!(rt; &b[200..204], [0x03, 0x40, 0x64, 0x00].as_slice());
    assert_eq!(rt; b[58], 2);
    assert_eq!(rt; &b[24..28], [0, 0, 0, 0].as_slice());
    assert_eq!(rt; read_header(&b), Ok(Slot::Used(second())));
    Ok(())
}

/// A header with these sizes, without runs: the blocks, the end of file, its first free byte and the mark.
fn sized(blocks: u32, end: u32, byte: u16, mark: u32) -> Block {
    let mut b = header(&[], 0);
    put_word(&mut b, 24, (blocks >> 16) as u16);
    put_word(&mut b, 26, (blocks & 0xffff) as u16);
    put_word(&mut b, 28, (end >> 16) as u16);
    put_word(&mut b, 30, (end & 0xffff) as u16);
    put_word(&mut b, 32, byte);
    put_long(&mut b, 76, mark);
    set_sum(&mut b);
    b
}

#[test]
fn an_extension_header_has_any_sizes(rt: HostRuntime) {
    let mut b = sized(0, 0xffff_ffff, 65535, 0xffff_ffff);
    assert_eq!(rt; read_header(&b), Err(HeaderFault::BadEnd));
    put_word(&mut b, 4, 15);
    set_link(&mut b, 0x02_0203, 7);
    let last = Hdr {
        num: 4,
        seq: 4,
        owner: 65537,
        dir: true,
        marked: false,
        blocks: 0,
        mark: 0xffff_ffff,
        end: 0xffff_ffff,
        byte: 65535,
        seg: 15,
        ext: 0x02_0203,
        ext_seq: 7,
    };
    assert_eq!(rt; read_header(&b), Ok(Slot::Used(last)));
    put_word(&mut b, 4, 16);
    set_sum(&mut b);
    assert_eq!(rt; read_header(&b), Err(HeaderFault::BadExtension));
}

#[test]
fn as_many_blocks_as_a_number_tells_are_read(rt: HostRuntime) {
    let b = sized(0xffff_ffff, 0xffff_ffff, 511, 0xffff_ffff);
    let whole = Hdr {
        num: 4,
        seq: 4,
        owner: 65537,
        dir: true,
        marked: false,
        blocks: 0xffff_ffff,
        mark: 0xffff_ffff,
        end: 0xffff_ffff,
        byte: 511,
        seg: 0,
        ext: 0,
        ext_seq: 0,
    };
    assert_eq!(rt; read_header(&b), Ok(Slot::Used(whole)));
}
