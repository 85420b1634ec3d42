//! The words of lines: which entry a line is about.

use log_check::{Death, Draft, draft_of, read_death, read_mending, shown_number};
use plain_cat::{Mended, Stage};
use std::test::Fail;

// Whether a line behind its number is about an answer of this node.
fn is_answer(alloc: std::alloc::Global, body: &str, node: u8) -> Result<bool, Fail> {
    let draft = draft_of(alloc, body.as_bytes())?;
    Ok(match draft {
        Some(Draft::Answer(given)) => given.node == node,
        _ => false,
    })
}

#[test]
fn reads_lines(rt: HostRuntime) -> Result<(), Fail> {
    let alloc = rt.alloc();
    let is_looked_up = is_answer(
        alloc,
        "N3 LOOKUP R1 (4,4,0) A.TXT;0 = (12,1,0) A.TXT;1\n",
        3,
    )?;
    assert!(rt; is_looked_up, "a look-up");
    let is_by_register = is_answer(alloc, "N3 LIST R1 = 0 entries\n", 3)?;
    assert!(rt; !is_by_register, "a list by a register");
    let death = Death {
        node: 2,
        stage: Stage::DataOnly,
        clusters: 3,
        numbers: 8,
    };
    assert!(rt;
        read_death(b"N2 died at data only, leaked 3 clusters, 8 numbers\n3 N1 ".as_slice())
            == Some(death),
        "the death of node 2 at data only"
    );
    let counts = Mended {
        entered: 1,
        removed: 2,
        gone: 3,
        clusters: 40,
        numbers: 5,
    };
    let text = b"rebuilt: 1 entered, 2 entries removed, 3 files gone, 40 clusters, 5 numbers\n";
    assert!(rt;
        read_mending(text.as_slice()) == Some(counts),
        "the counts of a mending"
    );
    assert!(rt;
        shown_number(b"(12,1,0) A.TXT;1".as_slice()) == Some(12),
        "the number of a file identifier"
    );
    Ok(())
}
