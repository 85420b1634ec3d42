//! The rules by which a node fills its stock of clusters and numbers, gives it back, and searches all free space.

ghost use Rattle.std.specs.Prelude.{◌≡◌, ◌≤◌, ◌+◌};

use base_words::Block;
use core_space::{
    Phase, SpaceEvent, SpaceLocks, SpaceNeed, SpaceRun, is_due, space_next, space_writes,
};
use extent_cache::Extents;
use fx_bitmap::{bit, clear_bits, set_bits};
use lock_db::LockName;
use plain_cat::{Mode, NoMemory, Refusal};
use std::alloc::Global;
use std::test::Fail;
use vol_parts::Geometry;

/// 256 clusters of four blocks, of which 0 to 24 are reserved, and 64 file numbers, of which 1 to 11 are used. The index-file bitmap
/// is LBN 16, and the storage bitmap LBN 85.
const SMALL: Geometry = Geometry {
    blocks: 1024,
    cluster: 4,
    files: 64,
    bitmap_lbn: 84,
    quota_lbn: 96,
};

const INDEX: u32 = 16;

const STORAGE: u32 = 85;

const NONE: SpaceLocks = SpaceLocks { x: None, v: None };

const SHARED: SpaceLocks = SpaceLocks {
    x: Some(Mode::CR),
    v: None,
};

const FILLING: SpaceLocks = SpaceLocks {
    x: Some(Mode::CR),
    v: Some(Mode::PW),
};

const LOWERED: SpaceLocks = SpaceLocks {
    x: Some(Mode::NL),
    v: Some(Mode::NL),
};

const ALONE_IN_X: SpaceLocks = SpaceLocks {
    x: Some(Mode::EX),
    v: Some(Mode::NL),
};

const ALONE: SpaceLocks = SpaceLocks {
    x: Some(Mode::EX),
    v: Some(Mode::PW),
};

/// A block in which the bits of this many numbers or clusters are set, from a first one on.
fn bits(from: u32, n: u32) -> Block
    requires { from + n ≤ 4096 }
{
    let mut block = [0; 512];
    set_bits(&mut block, from, n);
    block
}

fn needs(clusters: u32) -> SpaceNeed
    ensures { result.clusters ≡ clusters }
{
    SpaceNeed {
        clusters,
        number: true,
    }
}

/// A stock of this many clusters, from a first one on, and a number.
fn stocked(alloc: Global, from: u32, n: u32, number: u32) -> Result<Extents, NoMemory>
    requires clusters { from + n ≤ 65536 }
    requires first { 1 ≤ number }
    requires last { number ≤ 4096 }
{
    let mut stock = Extents::new(alloc)?;
    stock.make_room(alloc, n, 1)?;
    stock.put_clusters(from, n);
    stock.put_number(number);
    Ok(stock)
}

/// A look, with what it comes to.
fn look(
    alloc: Global,
    run: &mut SpaceRun,
    stock: &mut Extents,
    need: SpaceNeed,
    seen: (u32, Block),
) -> Result<(), NoMemory>
    requires { need.clusters ≤ 65536 }
{
    run.looked.push(seen)?;
    let decision = space_writes(alloc, &SMALL, run, stock, need)?;
    run.phase = decision.phase;
    run.writes = decision.writes;
    Ok(())
}

fn next(
    alloc: Global,
    locks: SpaceLocks,
    run: &SpaceRun,
    stock: &Extents,
    clusters: u32,
) -> Result<SpaceEvent, NoMemory>
    requires { clusters ≤ 65536 }
{
    space_next(alloc, &SMALL, locks, run, stock, needs(clusters))
}

fn asks(event: &SpaceEvent, name: LockName, mode: Mode) -> bool {
    matches!(event, SpaceEvent::Ask(n, m) if *n == name && *m == mode)
}

fn looks(event: &SpaceEvent, lbn: u32) -> bool {
    matches!(event, SpaceEvent::Look(l) if *l == lbn)
}

fn puts(event: &SpaceEvent, place: u32, written: &Block) -> bool {
    matches!(event, SpaceEvent::Put { lbn, block } if *lbn == place && *block == *written)
}

/// The locks that a filling asks for, by a node that has nothing and needs one cluster and a number.
fn asks_for_both(alloc: Global) -> Result<bool, NoMemory> {
    let stock = Extents::new(alloc)?;
    let run = SpaceRun::new(alloc);
    let first = next(alloc, NONE, &run, &stock, 1)?;
    let second = next(alloc, SHARED, &run, &stock, 1)?;
    Ok(asks(&first, LockName::X, Mode::CR) && asks(&second, LockName::V, Mode::PW))
}

/// The looks of that filling, and what it comes to by them.
fn look_at_both(alloc: Global, run: &mut SpaceRun, stock: &mut Extents) -> Result<bool, NoMemory> {
    let index = next(alloc, FILLING, run, stock, 1)?;
    look(alloc, run, stock, needs(1), (INDEX, bits(0, 11)))?;
    let storage = next(alloc, FILLING, run, stock, 1)?;
    look(alloc, run, stock, needs(1), (STORAGE, bits(25, 231)))?;
    Ok(looks(&index, INDEX) && looks(&storage, STORAGE) && run.phase == Phase::Fill)
}

/// Its writes: the numbers 12 to 20, and then the clusters 25 to 41.
fn writes_both(alloc: Global) -> Result<bool, NoMemory> {
    let mut stock = Extents::new(alloc)?;
    let mut run = SpaceRun::new(alloc);
    run.phase = Phase::Fill;
    let looked = look_at_both(alloc, &mut run, &mut stock)?;
    let index = next(alloc, FILLING, &run, &stock, 1)?;
    run.made = 1;
    let storage = next(alloc, FILLING, &run, &stock, 1)?;
    run.made = 2;
    let filled = stocked(alloc, 25, 17, 12)?;
    let last = next(alloc, FILLING, &run, &filled, 1)?;
    Ok(
        looked
            && puts(&index, INDEX, &bits(0, 20))
            && puts(&storage, STORAGE, &bits(42, 214))
            && matches!(&last, SpaceEvent::LowerV),
    )
}

// A CREATE of four blocks by the first node: one cluster and 16 more, one number and eight more, index block first.
#[test]
fn a_stock_is_filled_with_spare_ones(rt: HostRuntime) -> Result<(), Fail> {
    let alloc = rt.alloc();
    let asks = asks_for_both(alloc)?;
    assert!(&rt; asks, "the locks that a filling asks for");
    let writes = writes_both(alloc)?;
    assert!(&rt; writes, "the writes of a filling");
    let filled = stocked(alloc, 25, 17, 12)?;
    let enough = next(alloc, SHARED, &SpaceRun::new(alloc), &filled, 1)?;
    assert!(&rt;
        matches!(&enough, SpaceEvent::Enough),
        "a filled stock is enough"
    );
    Ok(())
}

/// A node with the clusters 196 to 211 and number 23 needs 76 clusters, and 44 are free: what its looks come to.
fn looks_and_drains(
    alloc: Global,
    run: &mut SpaceRun,
    stock: &mut Extents,
) -> Result<bool, NoMemory> {
    let storage = next(alloc, FILLING, run, stock, 76)?;
    look(alloc, run, stock, needs(76), (STORAGE, bits(212, 44)))?;
    let drains = run.phase == Phase::Drain && run.writes.items().is_empty();
    let index = next(alloc, FILLING, run, stock, 76)?;
    look(alloc, run, stock, needs(76), (INDEX, bits(0, 23)))?;
    Ok(looks(&storage, STORAGE) && drains && looks(&index, INDEX))
}

/// What comes behind the writes of a stock that goes back, the number first, where they are of these two blocks.
fn behind_writes(
    alloc: Global,
    run: &mut SpaceRun,
    stock: &mut Extents,
    written: (Block, Block),
) -> Result<Option<SpaceEvent>, NoMemory> {
    let index = next(alloc, FILLING, run, stock, 76)?;
    run.made = 1;
    let storage = next(alloc, FILLING, run, stock, 76)?;
    run.made = 2;
    stock.clear();
    let last = next(alloc, FILLING, run, stock, 76)?;
    if puts(&index, INDEX, &written.0) && puts(&storage, STORAGE, &written.1) {
        return Ok(Some(last));
    }
    Ok(None)
}

/// Its writes give all of its stock back.
fn gives_all_back(alloc: Global) -> Result<bool, NoMemory> {
    let mut stock = stocked(alloc, 196, 16, 23)?;
    let mut run = SpaceRun::new(alloc);
    run.phase = Phase::Fill;
    let looked = looks_and_drains(alloc, &mut run, &mut stock)?;
    let written = (bits(0, 22), bits(196, 60));
    let last = behind_writes(alloc, &mut run, &mut stock, written)?;
    Ok(looked && matches!(&last, Some(SpaceEvent::LowerX)))
}

// The other node holds the clusters 26 to 41, and gives them back for X in EX. With them the 76 are there, or none is.
#[test]
fn a_stock_goes_back_before_all_is_searched(rt: HostRuntime) -> Result<(), Fail> {
    let gives = gives_all_back(rt.alloc())?;
    assert!(&rt; gives, "all of the stock goes back before all is searched");
    Ok(())
}

/// All free space is searched under X in EX and V in PW.
fn searches_alone(
    alloc: Global,
    run: &mut SpaceRun,
    stock: &mut Extents,
) -> Result<bool, NoMemory> {
    let first = next(alloc, LOWERED, run, stock, 76)?;
    let second = next(alloc, ALONE_IN_X, run, stock, 76)?;
    let index = next(alloc, ALONE, run, stock, 76)?;
    look(alloc, run, stock, needs(76), (INDEX, bits(0, 12)))?;
    let storage = next(alloc, ALONE, run, stock, 76)?;
    Ok(
        asks(&first, LockName::X, Mode::EX)
            && asks(&second, LockName::V, Mode::PW)
            && looks(&index, INDEX)
            && looks(&storage, STORAGE),
    )
}

/// Just the need is taken of 76 clusters: number 13, and all of them.
fn takes_the_need(alloc: Global) -> Result<bool, NoMemory> {
    let mut stock = Extents::new(alloc)?;
    let mut run = SpaceRun::new(alloc);
    run.phase = Phase::Last;
    let searched = searches_alone(alloc, &mut run, &mut stock)?;
    look(
        alloc,
        &mut run,
        &mut stock,
        needs(76),
        (STORAGE, bits(180, 76)),
    )?;
    let index = next(alloc, ALONE, &run, &stock, 76)?;
    run.made = 1;
    let storage = next(alloc, ALONE, &run, &stock, 76)?;
    run.made = 2;
    let last = next(alloc, ALONE, &run, &stock, 76)?;
    Ok(
        searched
            && puts(&index, INDEX, &bits(0, 13))
            && puts(&storage, STORAGE, &bits(0, 0))
            && matches!(&last, SpaceEvent::Enough),
    )
}

/// With one cluster fewer the device is full.
fn is_full(alloc: Global) -> Result<bool, NoMemory> {
    let mut stock = Extents::new(alloc)?;
    let mut run = SpaceRun::new(alloc);
    run.phase = Phase::Last;
    let searched = searches_alone(alloc, &mut run, &mut stock)?;
    look(
        alloc,
        &mut run,
        &mut stock,
        needs(76),
        (STORAGE, bits(180, 75)),
    )?;
    let last = next(alloc, ALONE, &run, &stock, 76)?;
    Ok(searched && matches!(&last, SpaceEvent::Short(why) if *why == Refusal::DeviceFull))
}

#[test]
fn all_free_space_is_searched_for_just_the_need(rt: HostRuntime) -> Result<(), Fail> {
    let alloc = rt.alloc();
    let takes = takes_the_need(alloc)?;
    assert!(&rt; takes, "just the need is taken");
    let full = is_full(alloc)?;
    assert!(&rt; full, "the device is full");
    Ok(())
}

/// A node with the clusters 26 to 41 and number 13: when it gives them back, and its last event.
fn gives_back_when_due(alloc: Global) -> Result<bool, NoMemory> {
    let stock = stocked(alloc, 26, 16, 13)?;
    let due = is_due(SHARED, &stock, true, false, false)
        && is_due(NONE, &stock, false, false, true);
    let later = is_due(SHARED, &stock, true, true, false)
        || is_due(SHARED, &stock, false, false, false);
    let mut run = SpaceRun::new(alloc);
    run.phase = Phase::Back;
    let first = next(alloc, SHARED, &run, &stock, 0)?;
    let last = next(alloc, FILLING, &run, &Extents::new(alloc)?, 0)?;
    Ok(due && !later && asks(&first, LockName::V, Mode::PW) && matches!(&last, SpaceEvent::Return))
}

/// Its looks and its writes, the number first.
fn gives_back_for_good(alloc: Global) -> Result<bool, NoMemory> {
    let mut stock = stocked(alloc, 26, 16, 13)?;
    let mut run = SpaceRun::new(alloc);
    run.phase = Phase::Back;
    let index = next(alloc, FILLING, &run, &stock, 0)?;
    look(alloc, &mut run, &mut stock, needs(0), (INDEX, bits(0, 21)))?;
    let storage = next(alloc, FILLING, &run, &stock, 0)?;
    look(
        alloc,
        &mut run,
        &mut stock,
        needs(0),
        (STORAGE, bits(42, 214)),
    )?;
    let mut without = bits(0, 21);
    clear_bits(&mut without, 12, 1);
    let last = behind_writes(alloc, &mut run, &mut stock, (without, bits(26, 230)))?;
    Ok(
        looks(&index, INDEX)
            && looks(&storage, STORAGE)
            && run.phase == Phase::Back
            && matches!(&last, Some(SpaceEvent::Return)),
    )
}

#[test]
fn a_stock_goes_back_when_it_is_due(rt: HostRuntime) -> Result<(), Fail> {
    let gives = gives_back_when_due(rt.alloc())?;
    assert!(&rt; gives, "when a stock goes back");
    let returned = gives_back_for_good(rt.alloc())?;
    assert!(&rt; returned, "all of the stock goes back for good");
    Ok(())
}
