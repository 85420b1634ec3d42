//! Rows on the lock database alone, and those that are no rows.

use crate::steps::Step::{Asks, Blocks, Converts, Dies, Releases, Stands, Tries, Value};
use crate::steps::{Step, ask, play, try_ask};
use lock_db::LockName::{A, Q, S, V, X};
use lock_db::{Asked, LockDb, LockName, Mode, Owner, Tried, compatible};
use std::alloc::Global;
use std::test::Fail;

const NODE1: Owner = Owner { node: 1, part: 0 };

const NODE2: Owner = Owner { node: 2, part: 0 };

const NODE3: Owner = Owner { node: 3, part: 0 };

const NODE4: Owner = Owner { node: 4, part: 0 };

/// Channels of nodes as owners.
const CHANNEL1: Owner = Owner { node: 1, part: 1 };

const CHANNEL2: Owner = Owner { node: 1, part: 2 };

const CHANNEL3: Owner = Owner { node: 1, part: 3 };

const OTHER1: Owner = Owner { node: 2, part: 1 };

const THIRD1: Owner = Owner { node: 3, part: 1 };

const RELEASED: [Step; 6] = [
    Asks(S(5), NODE1, Mode::PW, true),
    Asks(S(5), NODE2, Mode::PR, false),
    Tries(S(5), NODE3, Mode::NL, false),
    Releases(S(5), NODE1, 7),
    Stands(S(5), NODE2, Some(Mode::PR), false),
    Value(S(5), [7; 16], true),
];

const DEAD_IN_PW: [Step; 15] = [
    Asks(S(5), NODE1, Mode::PW, true),
    Converts(S(5), NODE1, Mode::PW, 3, true),
    Asks(S(5), NODE2, Mode::PR, false),
    Tries(S(5), NODE3, Mode::NL, false),
    Dies(1),
    Stands(S(5), NODE1, None, false),
    Stands(S(5), NODE2, Some(Mode::PR), false),
    Value(S(5), [3; 16], false),
    Tries(S(5), NODE3, Mode::PR, true),
    Releases(S(5), NODE3, 8),
    Value(S(5), [3; 16], false),
    Converts(S(5), NODE2, Mode::PW, 8, true),
    Value(S(5), [3; 16], false),
    Converts(S(5), NODE2, Mode::NL, 9, true),
    Value(S(5), [9; 16], true),
];

/// PR of node 3 goes with the locks of the others, but a conversion stands in the queue. Once node 2 has released, node 1 is granted PW
/// beside CR; node 3 waits for it to be lowered then, and node 4 behind node 3.
const BEHIND_ANOTHER: [Step; 17] = [
    Asks(V, NODE1, Mode::PR, true),
    Asks(V, NODE2, Mode::PR, true),
    Asks(V, NODE3, Mode::CR, true),
    Converts(V, NODE1, Mode::PW, 0, false),
    Converts(V, NODE3, Mode::PR, 0, false),
    Asks(V, NODE4, Mode::NL, false),
    Stands(V, NODE1, Some(Mode::PR), true),
    Stands(V, NODE3, Some(Mode::CR), true),
    Releases(V, NODE2, 0),
    Stands(V, NODE1, Some(Mode::PW), false),
    Stands(V, NODE3, Some(Mode::CR), true),
    Stands(V, NODE4, None, true),
    Converts(V, NODE1, Mode::CR, 6, true),
    Stands(V, NODE3, Some(Mode::PR), false),
    Stands(V, NODE4, Some(Mode::NL), false),
    Value(V, [6; 16], true),
    Blocks(1, V, false),
];

/// Node 1 held no more than PR, so the value block is valid still.
const DEAD_IN_EACH_WAY: [Step; 13] = [
    Asks(A(12), CHANNEL1, Mode::CR, true),
    Asks(A(12), CHANNEL2, Mode::PR, true),
    Asks(A(12), OTHER1, Mode::PR, true),
    Converts(A(12), CHANNEL2, Mode::EX, 0, false),
    Asks(A(12), CHANNEL3, Mode::EX, false),
    Asks(A(12), THIRD1, Mode::PR, false),
    Dies(1),
    Stands(A(12), CHANNEL1, None, false),
    Stands(A(12), CHANNEL2, None, false),
    Stands(A(12), CHANNEL3, None, false),
    Stands(A(12), OTHER1, Some(Mode::PR), false),
    Stands(A(12), THIRD1, Some(Mode::PR), false),
    Value(A(12), [0; 16], true),
];

const VANISHED: [Step; 10] = [
    Asks(Q, NODE1, Mode::EX, true),
    Converts(Q, NODE1, Mode::PW, 5, true),
    Value(Q, [5; 16], true),
    Dies(1),
    Value(Q, [0; 16], true),
    Asks(Q, NODE2, Mode::PW, true),
    Value(Q, [0; 16], true),
    Releases(Q, NODE2, 4),
    Asks(Q, NODE2, Mode::PW, true),
    Value(Q, [0; 16], true),
];

/// Node 1 does not hold up a request of its own; neither node 2 nor a lock on another name holds up a request.
const HELD_UP: [Step; 7] = [
    Asks(X, NODE1, Mode::CR, true),
    Asks(X, CHANNEL1, Mode::EX, false),
    Blocks(1, X, false),
    Asks(X, NODE2, Mode::EX, false),
    Blocks(1, X, true),
    Blocks(2, X, false),
    Blocks(1, V, false),
];

const ROWS: [(&str, &[Step]); 6] = [
    ("a release from PW writes the value block", &RELEASED),
    (
        "a death in PW clears the mark until a writer sets it",
        &DEAD_IN_PW,
    ),
    ("a conversion waits behind another", &BEHIND_ANOTHER),
    (
        "a node dies with a lock, a conversion and a request",
        &DEAD_IN_EACH_WAY,
    ),
    ("a resource vanishes and comes back with zeros", &VANISHED),
    ("a node holds up the requests of others alone", &HELD_UP),
];

#[test]
fn databases_answer(rt: HostRuntime) -> Result<(), Fail> {
    for (row, steps) in ROWS {
        play(&rt, rt.alloc(), row, steps)?;
    }
    Ok(())
}

const MODES: [Mode; 6] = [Mode::NL, Mode::CR, Mode::CW, Mode::PR, Mode::PW, Mode::EX];

/// Which of the modes goes with which.
const TABLE: [[bool; 6]; 6] = [
    [true, true, true, true, true, true],
    [true, true, true, true, true, false],
    [true, true, true, false, false, false],
    [true, true, false, true, false, false],
    [true, true, false, false, false, false],
    [true, false, false, false, false, false],
];

// Whether of two owners, of whom one holds a lock, the other is granted its own at once, by a request and by a try.
fn both_go(alloc: Global, held: Mode, asked: Mode) -> Result<(bool, bool), Fail> {
    let mut db = LockDb::new(alloc)?;
    ask(alloc, &mut db, S(1), NODE1, held)?;
    ask(alloc, &mut db, A(1), NODE1, held)?;
    let granted = ask(alloc, &mut db, S(1), NODE2, asked)? == Asked::Granted;
    let tried = try_ask(alloc, &mut db, A(1), NODE2, asked)? == Tried::Granted;
    Ok((granted, tried))
}

#[test]
fn the_thirty_six_pairs_of_modes(rt: HostRuntime) -> Result<(), Fail> {
    for (held, row) in MODES.iter().zip(TABLE.iter()) {
        for (asked, goes) in MODES.iter().zip(row.iter()) {
            let both = both_go(rt.alloc(), *held, *asked)?;
            assert!(rt; both == (*goes, *goes), "{held:?} and {asked:?}");
            assert_eq!(rt; compatible(*held, *asked), *goes);
        }
    }
    Ok(())
}

// A database in which node 1 has this name in PW, and node 2 waits for it.
fn held(alloc: Global, name: LockName) -> Result<LockDb, Fail> {
    let mut db = LockDb::new(alloc)?;
    ask(alloc, &mut db, name, NODE1, Mode::PW)?;
    ask(alloc, &mut db, name, NODE2, Mode::PR)?;
    Ok(db)
}

#[test]
fn a_recovery_writes_the_block_of_a_copy_alone(rt: HostRuntime) -> Result<(), Fail> {
    let name = S(5);
    let db = held(rt.alloc(), name)?;
    let mut copy = db.copy(rt.alloc())?;
    if copy.mode(name, NODE1) == Some(Mode::PW) {
        copy.recover(name, [4; 16], false);
    }
    assert_eq!(rt; copy.value(name), ([4; 16], false));
    assert!(rt;
        copy.queued(name, NODE2) && !copy.queued(name, NODE1),
        "in the copy node 2 waits, and node 1 does not"
    );
    assert_eq!(rt; db.value(name), ([0; 16], true));
    Ok(())
}

// A lock in CR, which is tried in PR.
fn tried(alloc: Global) -> Result<Option<Tried>, Fail> {
    let mut db = LockDb::new(alloc)?;
    ask(alloc, &mut db, X, NODE1, Mode::CR)?;
    if db.mode(X, NODE1) == Some(Mode::CR) && !db.queued(X, NODE1) {
        return Ok(Some(db.try_convert(X, NODE1, Mode::PR)));
    }
    Ok(None)
}

#[test]
fn a_conversion_is_tried(rt: HostRuntime) -> Result<(), Fail> {
    assert_eq!(rt; tried(rt.alloc())?, Some(Tried::Granted));
    Ok(())
}
