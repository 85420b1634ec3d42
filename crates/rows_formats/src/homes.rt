//! Home blocks and storage control blocks with known words.

use base_words::{put_word, set_sum, sum_of, word_at};
use fx_home::{
    Home, HomeFault, Scb, ScbFault, home_block, read_home, read_scb, scb_block, slot_lbn,
};

/// A volume of 1,024 blocks in clusters of 4, with 64 files.
const KVOL: Home = Home {
    cluster: 4,
    files: 64,
    label: *b"KVOL        ",
};

#[test]
fn home_block_has_known_words(rt: HostRuntime) {
    let b = home_block(&KVOL);
    let mut words = [1, 8, 12, 513, 4, 2, 9, 13, 17, 16, 64, 1, 9].iter();
    for k in 0..29usize {
        let word = word_at(&b, 2 * k);
        if word != 0 {
            assert_eq!(rt; words.next().copied(), Some(word), "word {k}");
        }
    }
    assert_eq!(rt; words.next().copied(), None);
    assert_eq!(rt; word_at(&b, 58), 669);
    assert_eq!(rt; word_at(&b, 510), 37818);
    assert_eq!(rt; read_home(&b), Ok(KVOL));
    assert_eq!(rt; slot_lbn(&KVOL, 1), 17);
    assert_eq!(rt; slot_lbn(&KVOL, 64), 80);
}

#[test]
fn home_faults_come_in_order(rt: HostRuntime) {
    // Bytes that are changed, whether the checksums are made right after it, and the fault. Byte 0 is 1.
    let cases = [
        ([(496, 0), (0, 1)], false, HomeFault::BadFormat),
        ([(13, 5), (0, 1)], false, HomeFault::BadLevel),
        ([(28, 65), (0, 1)], false, HomeFault::BadSum1),
        ([(100, 1), (0, 1)], false, HomeFault::BadSum2),
        ([(14, 0), (0, 1)], true, HomeFault::BadCluster),
        ([(14, 17), (0, 1)], true, HomeFault::BadCluster),
        ([(28, 31), (0, 1)], true, HomeFault::BadFiles),
        ([(29, 16), (0, 1)], true, HomeFault::BadFiles),
        ([(0, 2), (0, 2)], true, HomeFault::BadLayout),
        ([(22, 16), (0, 1)], true, HomeFault::BadLayout),
        ([(24, 17), (0, 1)], true, HomeFault::BadLayout),
        ([(32, 2), (0, 1)], true, HomeFault::BadLayout),
        ([(496, 0), (13, 5)], false, HomeFault::BadFormat),
        ([(13, 5), (28, 65)], false, HomeFault::BadLevel),
        ([(28, 65), (100, 1)], false, HomeFault::BadSum1),
        ([(100, 1), (510, 1)], false, HomeFault::BadSum2),
        ([(14, 0), (28, 31)], true, HomeFault::BadCluster),
        ([(28, 31), (0, 2)], true, HomeFault::BadFiles),
    ];
    for (changes, summed, fault) in cases {
        let mut b = home_block(&KVOL);
        for (at, byte) in changes {
            if let Some(place) = b.get_mut(at) {
                *place = byte;
            }
        }
        if summed {
            let sum = sum_of(&b, 29);
            put_word(&mut b, 58, sum);
            set_sum(&mut b);
        }
        assert_eq!(rt; read_home(&b), Err(fault), "{changes:?}");
    }
}

#[test]
fn control_block_is_read(rt: HostRuntime) {
    let scb = Scb {
        cluster: 4,
        blocks: 1024,
    };
    let mut b = scb_block(&scb);
    assert_eq!(rt; word_at(&b, 510), 1541);
    assert_eq!(rt; read_scb(&b), Ok(scb));
    b[2] = 5;
    assert_eq!(rt; read_scb(&b), Err(ScbFault::BadSum));
    b[1] = 5;
    assert_eq!(rt; read_scb(&b), Err(ScbFault::BadLevel));
}
