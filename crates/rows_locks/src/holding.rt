//! Rows on the locks that nodes keep, with the sequences of their value blocks.

use crate::steps::Step::{Asks, Dies, Gives, Lowers, Stands, Takes, Value, Waits, Writes};
use crate::steps::{Step, play};
use lock_db::LockName::{Q, S, V};
use lock_db::{Mode, Owner};
use node_locks::{Raise, first_sequence, second_sequence};
use std::test::Fail;

const ONE_TWO: Raise = Raise {
    first: 1,
    second: 2,
};

const NOTHING: Raise = Raise {
    first: 0,
    second: 0,
};

const NODE1: Owner = Owner { node: 1, part: 0 };

const NODE2: Owner = Owner { node: 2, part: 0 };

const NODE3: Owner = Owner { node: 3, part: 0 };

const NODE4: Owner = Owner { node: 4, part: 0 };

/// Value blocks with two sequences below 256.
const AT_ONE_TWO: [u8; 16] = [1, 0, 0, 0, 0, 0, 0, 0, 2, 0, 0, 0, 0, 0, 0, 0];

const AT_TWO_FOUR: [u8; 16] = [2, 0, 0, 0, 0, 0, 0, 0, 4, 0, 0, 0, 0, 0, 0, 0];

const AT_ONE_ONE: [u8; 16] = [1, 0, 0, 0, 0, 0, 0, 0, 1, 0, 0, 0, 0, 0, 0, 0];

/// The writer waits for two readers, and the reader behind it for the writer. Readers raise nothing.
const BEHIND_READERS: [Step; 16] = [
    Waits(3, S(12), Mode::PW, false),
    Asks(S(12), NODE1, Mode::PR, true),
    Asks(S(12), NODE2, Mode::PR, true),
    Asks(Q, NODE3, Mode::PW, true),
    Asks(S(12), NODE3, Mode::PW, false),
    Asks(S(12), NODE4, Mode::PR, false),
    Waits(3, S(12), Mode::PW, true),
    Waits(2, S(12), Mode::PR, false),
    Gives(S(12), 1, ONE_TWO),
    Waits(3, S(12), Mode::PW, true),
    Gives(S(12), 2, ONE_TWO),
    Waits(4, S(12), Mode::PR, true),
    Value(S(12), [0; 16], true),
    Gives(S(12), 3, ONE_TWO),
    Waits(4, S(12), Mode::PR, false),
    Value(S(12), AT_ONE_TWO, true),
];

const CARRIED: [Step; 9] = [
    Asks(V, NODE1, Mode::PW, true),
    Asks(V, NODE2, Mode::PW, false),
    Asks(V, NODE3, Mode::PR, false),
    Writes(
        V,
        NODE1,
        [255, 0, 0, 0, 0, 0, 0, 7, 254, 255, 0, 0, 0, 0, 0, 0],
    ),
    Gives(V, 1, ONE_TWO),
    Value(V, [0, 1, 0, 0, 0, 0, 0, 7, 0, 0, 1, 0, 0, 0, 0, 0], true),
    Writes(V, NODE2, [255; 16]),
    Gives(V, 2, ONE_TWO),
    Value(V, [255; 16], true),
];

/// After the first release the block is valid.
const NOT_VALID: [Step; 11] = [
    Asks(S(4), NODE1, Mode::PW, true),
    Asks(S(4), NODE2, Mode::PW, false),
    Asks(S(4), NODE3, Mode::PW, false),
    Asks(S(4), NODE4, Mode::PR, false),
    Dies(1),
    Waits(2, S(4), Mode::PW, false),
    Value(S(4), [0; 16], false),
    Gives(S(4), 2, NOTHING),
    Value(S(4), AT_ONE_ONE, true),
    Gives(S(4), 3, NOTHING),
    Value(S(4), AT_ONE_ONE, true),
];

/// Node 1 converts from NL, and is served before node 3, which has asked before. Another row of node 1 goes on meanwhile.
const KEPT: [Step; 17] = [
    Takes(S(7), 1, Mode::PW, true),
    Lowers(S(7), 1, Mode::NL, ONE_TWO),
    Value(S(7), AT_ONE_TWO, true),
    Stands(S(7), NODE1, Some(Mode::NL), false),
    Takes(S(7), 2, Mode::PW, true),
    Takes(S(7), 3, Mode::PR, false),
    Takes(S(7), 1, Mode::PW, false),
    Waits(1, S(7), Mode::PW, true),
    Waits(3, S(7), Mode::PR, true),
    Takes(V, 1, Mode::PW, true),
    Waits(1, V, Mode::PW, false),
    Lowers(S(7), 2, Mode::NL, ONE_TWO),
    Waits(1, S(7), Mode::PW, false),
    Waits(3, S(7), Mode::PR, true),
    Value(S(7), AT_TWO_FOUR, true),
    Lowers(S(7), 1, Mode::NL, NOTHING),
    Waits(3, S(7), Mode::PR, false),
];

const ROWS: [(&str, &[Step]); 4] = [
    ("a writer waits behind readers", &BEHIND_READERS),
    ("sequences carry and stay at the last number", &CARRIED),
    ("a block that is not valid is raised by one", &NOT_VALID),
    ("a lock that is kept is asked for by a conversion", &KEPT),
];

#[test]
fn locks_are_held(rt: HostRuntime) -> Result<(), Fail> {
    for (row, steps) in ROWS {
        play(&rt, rt.alloc(), row, steps)?;
    }
    Ok(())
}

#[test]
fn a_value_block_has_two_sequences(rt: HostRuntime) {
    let value = [0, 1, 0, 0, 0, 0, 0, 7, 0, 0, 1, 0, 0, 0, 0, 0];
    assert_eq!(rt; first_sequence(&value), 0x0700_0000_0000_0100);
    assert_eq!(rt; second_sequence(&value), 65_536);
}
