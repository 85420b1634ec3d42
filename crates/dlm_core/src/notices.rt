//! Notices to owners whose locks are in the way of others.

ghost use Rattle.std.specs.Prelude.{◌≡◌, ◌≤◌, ◌++◌, OnOk, IfOk};
ghost use Rattle.std.specs.List.{flat_map};
ghost use Rattle.lock_db.specs.Queues.{goes_beside};
ghost use Rattle.dlm_core.specs.States.{IsShaped};
ghost use Rattle.dlm_core.specs.Notices.{is_in_way, notice_to, notices_for, notices};

use crate::cluster::Cluster;
use crate::holds::Hold;
use crate::masters::home;
use crate::queue::Waiter;
use lock_db::{LockName, Mode, NoMemory, Owner, compatible};
use std::alloc::Global;

/// A message from the master of a name to an owner whose lock there does not go with what another owner waits for.
#[derive(Clone, Copy, Debug, PartialEq)]
pub struct Notice {
    /// The master of the name, which sends it.
    pub from: u8,
    /// Whose lock is in the way. The notice goes to its node.
    pub owner: Owner,
    /// The resource.
    pub name: LockName,
    /// The mode that the other owner waits for.
    pub wanted: Mode,
}

fn goes_beside(mode: Mode, held: Option<Mode>) -> bool
    ensures { result ≡ goes_beside mode held }
{
    match held {
        Some(other) => compatible(mode, other),
        None => true,
    }
}

impl Cluster {
    /// Whether at the master an owner has a lock that does not go with what another waits for.
    fn is_in_way(&self, waiter: Waiter, hold: Hold) -> bool
        requires { IsShaped self.now }
        ensures { result ≡ is_in_way self.now waiter hold }
    {
        let i = home(self.nodes, waiter.name) as usize - 1;
        hold.name == waiter.name
            && hold.owner != waiter.owner
            && !goes_beside(waiter.mode, self.tables[i].mode(waiter.name, hold.owner))
    }

    fn notice_to(&self, waiter: Waiter, hold: Hold) -> Notice
        requires { IsShaped self.now }
        ensures { result ≡ notice_to self.now waiter hold }
    {
        Notice {
            from: self.home_of(waiter.name).master,
            owner: hold.owner,
            name: waiter.name,
            wanted: waiter.mode,
        }
    }

    /// Adds the notices to those of these owners that are in the way of an ask.
    fn add_notices(
        &self,
        waiter: Waiter,
        holds: &[Hold],
        all: &mut Vec<Notice>,
    ) -> Result<(), NoMemory>
        requires shape { IsShaped self.now }
        requires holds { holds.now ≡ self.now.holds }
        ensures { OnOk result (all.new.items ≡ all.old.items ++ notices_for self.now waiter) }
    {
        for h in holds {
            if self.is_in_way(waiter, *h) {
                all.push(self.notice_to(waiter, *h))?;
            }
        }
        Ok(())
    }

    /// The notices for asks that wait.
    fn notices_for(&self, alloc: Global, queue: &[Waiter]) -> Result<Vec<Notice>, NoMemory>
        requires { IsShaped self.now }
        ensures { IfOk result (λ v. v.items ≡ flat_map (notices_for self.now) queue.now) }
    {
        let mut all = Vec::new(alloc);
        for w in queue {
            self.add_notices(*w, self.holds.as_slice(), &mut all)?;
        }
        Ok(all)
    }

    /// The notices that the masters have for their holders.
    pub(crate) fn notices(&self, alloc: Global) -> Result<Vec<Notice>, NoMemory>
        requires { IsShaped self.now }
        ensures { IfOk result (λ v. v.items ≡ notices self.now) }
    {
        self.notices_for(alloc, self.queue.as_slice())
    }
}
