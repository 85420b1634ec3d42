//! The two queues of a resource: who waits, who is served next, and when a mode goes with the locks of others.

ghost use Rattle.std.specs.Prelude.{◌≡◌, Some, None, find, MatchBool};
ghost use Rattle.std.specs.List.{list_any};
ghost use Rattle.lock_db.specs.Queues.{is_upward, is_writing, held, wanted, converts, waits, is_converting, is_waiting, goes_beside, goes, head_of, standing_so, with_standing, one_grant, settled, standing_of, mode_of, settled_mode, lock_of, is_queued, queues, holds_up};

use crate::askers::{Asker, Standing};
use crate::name::Owner;
use plain_cat::{Mode, compatible};

/// Whether a conversion is to a greater mode.
pub(crate) fn is_upward(old: Mode, new: Mode) -> bool
    ensures { result ≡ is_upward old new }
{
    (old as u8) < (new as u8)
}

/// Whether a holder in this mode writes the value block.
pub(crate) fn is_writing(mode: Mode) -> bool
    ensures { result ≡ is_writing mode }
{
    matches!(mode, Mode::PW | Mode::EX)
}

/// The mode in which a lock is granted.
pub(crate) fn held(standing: Standing) -> Option<Mode>
    ensures { result ≡ held standing }
{
    match standing {
        Standing::Granted(mode) => Some(mode),
        Standing::Converting { held, .. } => Some(held),
        Standing::Waiting(_) => None,
    }
}

fn wanted(standing: Standing) -> Mode
    ensures { result ≡ wanted standing }
{
    match standing {
        Standing::Granted(mode) | Standing::Waiting(mode) => mode,
        Standing::Converting { wanted, .. } => wanted,
    }
}

fn converts(standing: Standing) -> bool
    ensures { result ≡ converts standing }
{
    matches!(standing, Standing::Converting { .. })
}

fn waits(standing: Standing) -> bool
    ensures { result ≡ waits standing }
{
    matches!(standing, Standing::Waiting(_))
}

fn goes_beside(mode: Mode, other: Option<Mode>) -> bool
    ensures { result ≡ goes_beside mode other }
{
    match other {
        Some(other) => compatible(mode, other),
        None => true,
    }
}

/// Whether a mode goes with the granted locks of all other owners.
pub(crate) fn goes(owner: Owner, mode: Mode, all: &[Asker]) -> bool
    ensures { result ≡ goes owner mode all.now }
{
    all.iter().all(|a| a.owner == owner || goes_beside(mode, held(a.standing)))
}

pub(crate) fn has_converting(all: &[Asker]) -> bool
    ensures { result ≡ list_any is_converting all.now }
{
    all.iter().any(|a| converts(a.standing))
}

pub(crate) fn has_waiting(all: &[Asker]) -> bool
    ensures { result ≡ list_any is_waiting all.now }
{
    all.iter().any(|a| waits(a.standing))
}

fn first_converting(all: &[Asker]) -> Option<Asker>
    ensures { result ≡ find is_converting all.now }
{
    all.iter().copied().find(|a| converts(a.standing))
}

fn first_waiting(all: &[Asker]) -> Option<Asker>
    ensures { result ≡ find is_waiting all.now }
{
    all.iter().copied().find(|a| waits(a.standing))
}

/// Who is served next.
fn head(all: &[Asker]) -> Option<Asker>
    ensures { result ≡ head_of all.now }
{
    first_converting(all).or_else(|| first_waiting(all))
}

fn stand_if(asker: &mut Asker, owner: Owner, standing: Standing)
    ensures { asker.new ≡ standing_so owner standing asker.old }
{
    if asker.owner == owner {
        asker.standing = standing;
    }
}

/// Changes how an owner stands.
pub(crate) fn stand(all: &mut [Asker], owner: Owner, standing: Standing)
    ensures { all.new ≡ with_standing owner standing all.old }
{
    for a in all.iter_mut() {
        stand_if(a, owner, standing);
    }
}

/// Grants the head what it wants, where that can be granted.
fn grant_one(all: &mut [Asker]) -> bool
    ensures { MatchBool result (one_grant all.old ≡ Some all.new) ((one_grant all.old ≡ None) × (all.new ≡ all.old)) }
{
    let Some(a) = head(all) else {
        return false;
    };
    let mode = wanted(a.standing);
    if !goes(a.owner, mode, all) {
        return false;
    }
    stand(all, a.owner, Standing::Granted(mode));
    true
}

/// Grants heads while they can be granted.
pub(crate) fn settle(all: &mut [Asker])
    ensures { all.new ≡ settled all.old }
{
    let most = all.len();
    for _ in 0..most {
        if !grant_one(all) {
            return;
        }
    }
}

pub(crate) fn standing_of(all: &[Asker], owner: Owner) -> Option<Standing>
    ensures { result ≡ standing_of owner all.now }
{
    all.iter().find(|a| a.owner == owner).map(|a| a.standing)
}

pub(crate) fn mode_of(all: &[Asker], owner: Owner) -> Option<Mode>
    ensures { result ≡ mode_of owner all.now }
{
    standing_of(all, owner).and_then(|s| held(s))
}

fn settled_mode(standing: Standing) -> Option<Mode>
    ensures { result ≡ settled_mode standing }
{
    match standing {
        Standing::Granted(mode) => Some(mode),
        Standing::Converting { .. } | Standing::Waiting(_) => None,
    }
}

/// The mode of the owner's lock, where it has one of which no conversion waits.
pub(crate) fn lock_of(all: &[Asker], owner: Owner) -> Option<Mode>
    ensures { result ≡ lock_of owner all.now }
{
    standing_of(all, owner).and_then(|s| settled_mode(s))
}

fn is_queued(standing: Standing) -> bool
    ensures { result ≡ is_queued standing }
{
    converts(standing) || waits(standing)
}

pub(crate) fn queues(all: &[Asker], owner: Owner) -> bool
    ensures { result ≡ queues owner all.now }
{
    match standing_of(all, owner) {
        Some(standing) => is_queued(standing),
        None => false,
    }
}

pub(crate) fn holds_up(all: &[Asker], owner: Owner) -> bool
    ensures { result ≡ holds_up owner all.now }
{
    let lock = mode_of(all, owner);
    all.iter().any(|a| {
        is_queued(a.standing)
            && a.owner.node != owner.node
            && !goes_beside(wanted(a.standing), lock)
    })
}
