//! Which event comes next, and what a look comes to.

ghost use Rattle.std.specs.Prelude.{◌≡◌, ◌≤◌, IfOk, OnErr, None, slice_get};
ghost use Rattle.extent_cache.specs.Stock.{Stock};
ghost use Rattle.extent_cache.specs.Takings.{holds_enough};
ghost use Rattle.vol_parts.specs.Parts.{IsGeometry};
ghost use Rattle.core_space.specs.Answering.{answer, blocks_alone};
ghost use Rattle.core_space.specs.Giving.{give_place};
ghost use Rattle.core_space.specs.Rule.{is_shared, has_any, TakesMemory, next_put, written_first, after_looks, by_search, fill_event, last_event, back_event, space_event, is_due, looks_on, gives, fills, search_by, space_decision};

use crate::event::{Decision, SpaceEvent};
use crate::filling::{clusters_to_take, fill, fill_place, lacks_number};
use crate::giving::{give_place, give_writes};
use crate::run::{Phase, SpaceLocks, SpaceNeed, SpaceRun};
use crate::{Search, search};
use extent_cache::Extents;
use lock_db::LockName;
use op_law::Writes;
use plain_cat::{Mode, NoMemory};
use std::alloc::Global;
use vol_parts::Geometry;

// X is held in CR or more.
fn is_shared(mode: Option<Mode>) -> bool
    ensures { result ≡ is_shared mode }
{
    match mode {
        None | Some(Mode::NL) => false,
        Some(_) => true,
    }
}

// The next write that was decided on.
fn next_put(run: &SpaceRun) -> Option<SpaceEvent>
    ensures { result ≡ next_put run.now }
{
    match run.writes.items().get(run.made) {
        Some(write) => Some(SpaceEvent::Put {
            lbn: write.lbn,
            block: write.block,
        }),
        None => None,
    }
}

// The next look, and behind the looks another event.
fn after_looks(place: Option<u32>, event: SpaceEvent) -> SpaceEvent
    ensures { result ≡ after_looks place event }
{
    match place {
        Some(lbn) => SpaceEvent::Look(lbn),
        None => event,
    }
}

// The next event of a filling.
fn fill_event(
    geometry: &Geometry,
    locks: SpaceLocks,
    run: &SpaceRun,
    stock: &Extents,
    need: SpaceNeed,
) -> SpaceEvent
    requires geometry { IsGeometry geometry.now }
    requires need { need.clusters ≤ 65536 }
    ensures { result ≡ fill_event (record { geometry = geometry.now; locks = locks; run = run.now; stock = stock.now }) need }
{
    if !is_shared(locks.x) {
        return SpaceEvent::Ask(LockName::X, Mode::CR);
    }
    if locks.v != Some(Mode::PW) {
        return SpaceEvent::Ask(LockName::V, Mode::PW);
    }
    if let Some(put) = next_put(run) {
        return put;
    }
    let wanted = clusters_to_take(need.clusters, stock.count());
    let lacks = lacks_number(need.number, stock);
    let place = fill_place(geometry, wanted, lacks, run.looked.items());
    after_looks(place, SpaceEvent::LowerV)
}

// Whether the stock holds anything.
fn has_any(stock: &Extents) -> bool
    ensures { result ≡ has_any stock.now }
{
    stock.count() > 0 || !stock.numbers().is_empty()
}

// The next block to be looked at before a stock goes back.
fn next_give(geometry: &Geometry, run: &SpaceRun, stock: &Extents) -> Option<u32>
    requires { IsGeometry geometry.now }
    ensures { result ≡ give_place geometry.now stock.now.clusters stock.now.numbers run.now.looked }
{
    give_place(
        geometry,
        stock.clusters(),
        stock.numbers(),
        run.looked.items(),
    )
}

// The next event where a stock goes back: a write, a look, or what comes behind these.
fn give_event(geometry: &Geometry, run: &SpaceRun, stock: &Extents, last: SpaceEvent) -> SpaceEvent
    requires { IsGeometry geometry.now }
    ensures { result ≡ written_first run.now (after_looks (give_place geometry.now stock.now.clusters stock.now.numbers run.now.looked) last) }
{
    if let Some(put) = next_put(run) {
        return put;
    }
    after_looks(next_give(geometry, run, stock), last)
}

/// The next event where the stock goes back for good, as another node wants it to, or as there is no command left. It takes no
/// memory.
pub fn back_next(
    geometry: &Geometry,
    locks: SpaceLocks,
    run: &SpaceRun,
    stock: &Extents,
) -> SpaceEvent
    requires { IsGeometry geometry.now }
    ensures { result ≡ back_event (record { geometry = geometry.now; locks = locks; run = run.now; stock = stock.now }) }
{
    if locks.v != Some(Mode::PW) {
        return SpaceEvent::Ask(LockName::V, Mode::PW);
    }
    give_event(geometry, run, stock, SpaceEvent::Return)
}

// What the search of all free space comes to.
fn search_event(
    alloc: Global,
    geometry: &Geometry,
    run: &SpaceRun,
    need: SpaceNeed,
) -> Result<SpaceEvent, NoMemory>
    requires { IsGeometry geometry.now }
    ensures { IfOk result (λ e. e ≡ by_search (answer geometry.now need.clusters need.number (blocks_alone run.now.looked))) }
{
    let found = search(
        alloc,
        geometry,
        need.clusters,
        need.number,
        run.looked.items(),
    )?;
    Ok(match found {
        Search::Look(lbn) => SpaceEvent::Look(lbn),
        Search::Short(why) => SpaceEvent::Short(why),
        Search::Take(_) => SpaceEvent::Enough,
    })
}

// The next event of the search of all free space.
fn last_event(
    alloc: Global,
    geometry: &Geometry,
    locks: SpaceLocks,
    run: &SpaceRun,
    need: SpaceNeed,
) -> Result<SpaceEvent, NoMemory>
    requires { IsGeometry geometry.now }
    ensures event { (stock : Stock) → IfOk result (λ e. e ≡ last_event (record { geometry = geometry.now; locks = locks; run = run.now; stock = stock }) need) }
    ensures made { OnErr result (slice_get run.now.writes run.now.made ≡ None) }
{
    if locks.x != Some(Mode::EX) {
        return Ok(SpaceEvent::Ask(LockName::X, Mode::EX));
    }
    if locks.v != Some(Mode::PW) {
        return Ok(SpaceEvent::Ask(LockName::V, Mode::PW));
    }
    if let Some(put) = next_put(run) {
        return Ok(put);
    }
    search_event(alloc, geometry, run, need)
}

// Whether the stock holds what is needed.
fn holds_enough(stock: &Extents, need: SpaceNeed) -> bool
    ensures { result ≡ holds_enough need.clusters need.number stock.now }
{
    need.clusters <= stock.count() && (!need.number || !stock.numbers().is_empty())
}

/// The next event of a node's rules for space, by what its command needs (at most 65,536 clusters), the modes in which it holds X
/// and V, what it has done by the rules, and its stock. In the phase `Back` the need is of no matter.
///
/// It fails only where memory is refused, and takes memory only in the search of all free space, where no write comes next.
pub fn space_next(
    alloc: Global,
    geometry: &Geometry,
    locks: SpaceLocks,
    run: &SpaceRun,
    stock: &Extents,
    need: SpaceNeed,
) -> Result<SpaceEvent, NoMemory>
    requires geometry { IsGeometry geometry.now }
    requires need { need.clusters ≤ 65536 }
    ensures event { IfOk result (λ e. e ≡ space_event (record { geometry = geometry.now; locks = locks; run = run.now; stock = stock.now }) need) }
    ensures memory { OnErr result (TakesMemory (record { geometry = geometry.now; locks = locks; run = run.now; stock = stock.now })) }
{
    match run.phase {
        Phase::Off if holds_enough(stock, need) => Ok(SpaceEvent::Enough),
        Phase::Off | Phase::Fill => Ok(fill_event(geometry, locks, run, stock, need)),
        Phase::Drain => Ok(give_event(geometry, run, stock, SpaceEvent::LowerX)),
        Phase::Last => last_event(alloc, geometry, locks, run, need),
        Phase::Back => Ok(back_next(geometry, locks, run, stock)),
    }
}

/// Whether a node's stock is to go back: another node waits for X (`wanted`), this node holds it in CR, and its command is not
/// `busy`, that is, it has not come to its rules for space, and neither holds nor awaits V; or its commands have `ended`, and the
/// stock holds anything.
pub fn is_due(locks: SpaceLocks, stock: &Extents, wanted: bool, busy: bool, ended: bool) -> bool
    ensures { result ≡ is_due locks stock.now wanted busy ended }
{
    locks.x == Some(Mode::CR) && wanted && !busy || ended && has_any(stock)
}

// The rule looks on in this phase.
fn looks_on(alloc: Global, phase: Phase) -> Decision
    ensures { result ≡ looks_on phase }
{
    Decision {
        phase,
        writes: Writes::new(alloc),
        short: None,
    }
}

// The stock goes back once all its blocks are looked at.
fn gives(
    alloc: Global,
    geometry: &Geometry,
    phase: Phase,
    run: &SpaceRun,
    stock: &Extents,
) -> Result<Decision, NoMemory>
    requires { IsGeometry geometry.now }
    ensures { IfOk result (λ d. d ≡ gives phase geometry.now run.now.looked stock.now) }
{
    // (what every stock is, the contract of its count says)
    let _count = stock.count();
    let clusters = stock.clusters();
    let numbers = stock.numbers();
    if give_place(geometry, clusters, numbers, run.looked.items()).is_some() {
        return Ok(looks_on(alloc, phase));
    }
    let writes = give_writes(alloc, geometry, clusters, numbers, run.looked.items())?;
    Ok(Decision {
        phase,
        writes,
        short: None,
    })
}

// The stock is filled once all is looked at, or goes back where there is too little.
fn fills(
    alloc: Global,
    geometry: &Geometry,
    run: &SpaceRun,
    stock: &Extents,
    need: SpaceNeed,
) -> Result<Decision, NoMemory>
    requires geometry { IsGeometry geometry.now }
    requires need { need.clusters ≤ 65536 }
    ensures decision { IfOk result (λ d. d ≡ fills geometry.now run.now.looked stock.now need) }
{
    let wanted = clusters_to_take(need.clusters, stock.count());
    let lacks = lacks_number(need.number, stock);
    if fill_place(geometry, wanted, lacks, run.looked.items()).is_some() {
        return Ok(looks_on(alloc, Phase::Fill));
    }
    match fill(alloc, geometry, need, run.looked.items(), stock)? {
        Some(writes) => Ok(Decision {
            phase: Phase::Fill,
            writes,
            short: None,
        }),
        None => gives(alloc, geometry, Phase::Drain, run, stock),
    }
}

// What the search of all free space comes to.
fn searches(
    alloc: Global,
    geometry: &Geometry,
    run: &SpaceRun,
    need: SpaceNeed,
) -> Result<Decision, NoMemory>
    requires { IsGeometry geometry.now }
    ensures { IfOk result (λ d. d ≡ search_by (answer geometry.now need.clusters need.number (blocks_alone run.now.looked))) }
{
    let found = search(
        alloc,
        geometry,
        need.clusters,
        need.number,
        run.looked.items(),
    )?;
    let mut decision = looks_on(alloc, Phase::Last);
    match found {
        Search::Look(_) => (),
        Search::Short(why) => decision.short = Some(why),
        Search::Take(writes) => decision.writes = writes,
    }
    Ok(decision)
}

/// What a node's rules for space come to by the blocks that it has looked at, the last one included: the phase in which they go
/// on, the writes that come next, in order, and why the need is refused. It fails only where memory is refused.
pub fn space_writes(
    alloc: Global,
    geometry: &Geometry,
    run: &SpaceRun,
    stock: &Extents,
    need: SpaceNeed,
) -> Result<Decision, NoMemory>
    requires geometry { IsGeometry geometry.now }
    requires need { need.clusters ≤ 65536 }
    ensures decision { IfOk result (λ d. d ≡ space_decision geometry.now run.now stock.now need) }
{
    match run.phase {
        Phase::Off => Ok(looks_on(alloc, Phase::Off)),
        Phase::Fill => fills(alloc, geometry, run, stock, need),
        Phase::Drain => gives(alloc, geometry, Phase::Drain, run, stock),
        Phase::Last => searches(alloc, geometry, run, need),
        Phase::Back => gives(alloc, geometry, Phase::Back, run, stock),
    }
}
