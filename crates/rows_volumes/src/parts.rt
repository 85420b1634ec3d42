//! The parts of a volume, and the order of quota rows.

ghost use Rattle.std.specs.Prelude.{◌≤◌, length};

use base_words::{Block, put_bytes, put_long, put_word, set_sum};
use fx_header::Run;
use fx_home::Home;
use fx_quota::Row;
use std::test::Fail;
use vol_parts::{fields, file_runs, first_lbn, is_free_cluster, is_used_number, sorted_rows};

/// The header of a file with these retrieval pointers and so many blocks, its sequence 3 and its owner [1,4].
fn header(num: u16, map: &[u8], blocks: u16) -> Block
    requires { length map.now ≤ 200 }
{
    let mut b = [0; 512];
    put_bytes(&mut b, 0, &[40, 100, 255, 255]);
    put_word(&mut b, 6, 513);
    put_word(&mut b, 8, num);
    put_word(&mut b, 10, 3);
    put_word(&mut b, 26, blocks);
    put_word(&mut b, 30, blocks.wrapping_add(1));
    put_bytes(&mut b, 58, &[(map.len() / 2) as u8]);
    put_long(&mut b, 60, 65540);
    put_bytes(&mut b, 200, map);
    set_sum(&mut b);
    b
}

// Clusters of one block and 32 files: the index-file bitmap is LBN 4, and header n is LBN 4 + n. Number 12 is in use, and
// cluster 63 is free.
#[test]
fn parts_are_read(rt: HostRuntime) -> Result<(), Fail> {
    let home = Home {
        cluster: 1,
        files: 32,
        label: *b"SMALL       ",
    };
    let mut blocks = vec![in rt.alloc(); [0; 512]; 64]?;
    blocks[4][1] = 8;
    blocks[6] = header(2, &[1, 0x40, 40, 0], 2);
    blocks[16] = header(12, &[0, 0x40, 50, 0, 1, 0x40, 45, 0], 3);
    blocks[41][7] = 0x80;
    let blocks = blocks.as_slice();
    assert!(rt;
        fields(&home, blocks, 13).is_none(),
        "number 13, which is not in use, has no fields"
    );
    let Some(f) = fields(&home, blocks, 12) else {
        return Err(Fail::from("number 12 is in use"));
    };
    assert_eq!(rt; f.num, 12);
    assert_eq!(rt; f.blocks, 3);
    let mut runs = file_runs(&home, blocks, 12);
    assert_eq!(rt; runs.next(), Some(Run { lbn: 50, count: 1 }));
    assert_eq!(rt; runs.next(), Some(Run { lbn: 45, count: 2 }));
    assert_eq!(rt; runs.next(), None);
    let bitmap = first_lbn(&home, blocks, 2);
    if bitmap != 40 {
        return Err(Fail::from("BITMAP.SYS begins at LBN 40"));
    }
    assert!(rt;
        is_free_cluster(&home, blocks, bitmap, 63),
        "cluster 63 is free"
    );
    assert!(rt;
        !is_free_cluster(&home, blocks, bitmap, 62),
        "cluster 62 is not free"
    );
    assert!(rt; is_used_number(&home, blocks, 12), "number 12 is in use");
    assert!(rt;
        !is_used_number(&home, blocks, 11),
        "number 11 is not in use"
    );
    Ok(())
}

#[test]
fn rows_are_sorted(rt: HostRuntime) -> Result<(), Fail> {
    let row = |uic| Row {
        uic,
        usage: 1,
        quota: 2,
        over: 3,
    };
    let sorted = sorted_rows(rt.alloc(), &[row(65540), row(65537), row(70000)])?;
    let [first, second, third] = sorted.items() else {
        return Err(Fail::from("there are three rows"));
    };
    assert_eq!(rt; first.owner.0, 65537);
    assert_eq!(rt; second.owner.0, 65540);
    assert_eq!(rt; third.owner.0, 70000);
    Ok(())
}
