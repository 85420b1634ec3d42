//! Steps on a database of locks, each with what it answers. Rows of them are data.

use lock_db::{Asked, LockDb, LockName, Mode, Owner, Tried};
use node_locks::{Raise, lower, release, take, waits};
use std::alloc::Global;
use std::process::Abort;
use std::test::Fail;

/// What happens on a name, or what is seen there. Where something is asked for, the last word says whether it is granted at once.
pub enum Step {
    /// A request of an owner.
    Asks(LockName, Owner, Mode, bool),
    /// The same, which does not queue.
    Tries(LockName, Owner, Mode, bool),
    /// A conversion, with sixteen such bytes as the value block.
    Converts(LockName, Owner, Mode, u8, bool),
    /// A release, with such a value block.
    Releases(LockName, Owner, u8),
    /// A holder of PW writes the value block.
    Writes(LockName, Owner, [u8; 16]),
    /// A node dies.
    Dies(u8),
    /// The file system of a node asks for a lock that it has not, or has in NL.
    Takes(LockName, u8, Mode, bool),
    /// It lowers its lock, and raises the sequences.
    Lowers(LockName, u8, Mode, Raise),
    /// It releases its lock, and raises the sequences.
    Gives(LockName, u8, Raise),
    /// Whether a row of it that ends with this lock waits.
    Waits(u8, LockName, Mode, bool),
    /// The mode that an owner has, and whether a request or a conversion of it waits.
    Stands(LockName, Owner, Option<Mode>, bool),
    /// Whether a node holds up a request of another.
    Blocks(u8, LockName, bool),
    /// The value block, and whether it is valid.
    Value(LockName, [u8; 16], bool),
}

pub fn ask(
    alloc: Global,
    db: &mut LockDb,
    name: LockName,
    owner: Owner,
    mode: Mode,
) -> Result<Asked, Fail> {
    if db.mode(name, owner).is_some() || db.queued(name, owner) {
        return Err(Fail::new("the owner stands there"));
    }
    Ok(db.request(alloc, name, owner, mode)?)
}

pub fn try_ask(
    alloc: Global,
    db: &mut LockDb,
    name: LockName,
    owner: Owner,
    mode: Mode,
) -> Result<Tried, Fail> {
    if db.mode(name, owner).is_some() || db.queued(name, owner) {
        return Err(Fail::new("the owner stands there"));
    }
    Ok(db.try_request(alloc, name, owner, mode)?)
}

fn convert(
    db: &mut LockDb,
    name: LockName,
    owner: Owner,
    mode: Mode,
    value: [u8; 16],
) -> Result<Asked, Fail> {
    let Some(held) = db.mode(name, owner) else {
        return Err(Fail::new("no lock"));
    };
    if db.queued(name, owner) || (held == Mode::PR && mode == Mode::CW) {
        return Err(Fail::new("a conversion that is not asked"));
    }
    Ok(db.convert(name, owner, mode, value))
}

fn release_as(db: &mut LockDb, name: LockName, owner: Owner, byte: u8) -> Result<(), Fail> {
    if db.mode(name, owner).is_none() || db.queued(name, owner) {
        return Err(Fail::new("no lock"));
    }
    db.release(name, owner, [byte; 16]);
    Ok(())
}

fn take_on(
    alloc: Global,
    db: &mut LockDb,
    name: LockName,
    node: u8,
    mode: Mode,
) -> Result<Asked, Fail> {
    let owner = Owner { node, part: 0 };
    if db.queued(name, owner)
        || !(db.mode(name, owner).is_none() || db.mode(name, owner) == Some(Mode::NL))
    {
        return Err(Fail::new("no lock that can be asked for"));
    }
    Ok(take(alloc, db, node, name, mode)?)
}

fn lower_on(
    db: &mut LockDb,
    name: LockName,
    node: u8,
    low: Mode,
    raise: Raise,
) -> Result<(), Fail> {
    let owner = Owner { node, part: 0 };
    if db.mode(name, owner).is_none() || db.queued(name, owner) || low == Mode::CW {
        return Err(Fail::new("no lock"));
    }
    lower(db, node, name, low, raise);
    Ok(())
}

fn give(db: &mut LockDb, name: LockName, node: u8, raise: Raise) -> Result<(), Fail> {
    let owner = Owner { node, part: 0 };
    if db.mode(name, owner).is_none() || db.queued(name, owner) {
        return Err(Fail::new("no lock"));
    }
    release(db, node, name, raise);
    Ok(())
}

// What is asked for: whether it is granted as the step says.
fn asks(alloc: Global, db: &mut LockDb, step: &Step) -> Result<bool, Fail> {
    Ok(match step {
        Step::Asks(name, owner, mode, now) => {
            (ask(alloc, db, *name, *owner, *mode)? == Asked::Granted) == *now
        }
        Step::Tries(name, owner, mode, now) => {
            (try_ask(alloc, db, *name, *owner, *mode)? == Tried::Granted) == *now
        }
        Step::Converts(name, owner, mode, byte, now) => {
            (convert(db, *name, *owner, *mode, [*byte; 16])? == Asked::Granted) == *now
        }
        Step::Takes(name, node, mode, now) => {
            (take_on(alloc, db, *name, *node, *mode)? == Asked::Granted) == *now
        }
        _ => true,
    })
}

// What is given up or written.
fn gives(db: &mut LockDb, step: &Step) -> Result<(), Fail> {
    match step {
        Step::Releases(name, owner, byte) => release_as(db, *name, *owner, *byte),
        Step::Writes(name, owner, value) => convert(db, *name, *owner, Mode::PW, *value).map(
            |_| (),
        ),
        Step::Dies(node) => {
            db.drop_node(*node);
            Ok(())
        }
        Step::Lowers(name, node, low, raise) => lower_on(db, *name, *node, *low, *raise),
        Step::Gives(name, node, raise) => give(db, *name, *node, *raise),
        _ => Ok(()),
    }
}

// What is seen: whether it is as the step says.
fn sees(db: &LockDb, step: &Step) -> bool {
    match step {
        Step::Waits(node, name, mode, wait) => waits(db, *node, &[(*name, *mode)]) == *wait,
        Step::Stands(name, owner, mode, wait) => {
            db.mode(*name, *owner) == *mode && db.queued(*name, *owner) == *wait
        }
        Step::Blocks(node, name, blocks) => db.blocking(*node, *name) == *blocks,
        Step::Value(name, value, valid) => db.value(*name) == (*value, *valid),
        _ => true,
    }
}

/// Goes through the steps of a row on a database in which nobody has anything.
pub fn play(rt: &impl Abort, alloc: Global, row: &str, steps: &[Step]) -> Result<(), Fail> {
    let mut db = LockDb::new(alloc)?;
    let mut at = 0u32;
    for step in steps {
        at = at.saturating_add(1);
        let answered = asks(alloc, &mut db, step)?;
        gives(&mut db, step)?;
        assert!(rt; answered && sees(&db, step), "{row}: step {at}");
    }
    Ok(())
}
