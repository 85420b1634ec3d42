//! Sums of words.

use base_words::{Block, long_at, put_long, put_word, set_sum, sum_of, word_at};
use std::test::Fail;

// The words and the sum of a home block's front, as they stand on a volume of 64 files and clusters of 4 blocks.
#[test]
fn sums_words(rt: HostRuntime) -> Result<(), Fail> {
    let words = [
        1u16, 0, 8, 0, 12, 0, 513, 4, 2, 9, 13, 17, 16, 0, 64, 0, 1, 9,
    ];
    let mut b: Block = [0; 512];
    for (k, word) in words.iter().enumerate() {
        if k < 18 {
            put_word(&mut b, 2 * k, *word);
        }
    }
    assert_eq!(rt; sum_of(&b, 29), 669);
    put_long(&mut b, 60, 0x0403_0201);
    assert_eq!(rt; b[60], 1);
    assert_eq!(rt; long_at(&b, 60), 67_305_985);
    set_sum(&mut b);
    assert_eq!(rt;
        word_at(&b, 510),
        669u16.wrapping_add(0x0201).wrapping_add(0x0403)
    );
    Ok(())
}
