//! The core and its calls.

ghost use Rattle.std.specs.Prelude.{◌≡◌, ◌≤◌, OnErr, OnOk, IfOk};
ghost use Rattle.dlm_core.specs.States.{start};
ghost use Rattle.dlm_core.specs.Events.{after, told_of};
ghost use Rattle.dlm_core.specs.Lanes.{IsSound, BeliefsGoTogether};
ghost use Rattle.dlm_core.specs.Runs.{GoesByCalls};
ghost use Rattle.dlm_core.specs.Notices.{notices};

use crate::cluster::Cluster;
use crate::events::{Event, Told};
use crate::notices::Notice;
use crate::rules::BlockRule;
use plain_cat::NoMemory;
use std::alloc::Global;
use std::marker::Model;

/// The lock database of all nodes. At every moment, what two owners believe of one name goes together.
#[derive(Drop)]
pub struct Dlm {
    cluster: Cluster,
}

impl Model for Dlm {
    ghost use Rattle.dlm_core.specs.States.{State};
    ghost use Rattle.dlm_core.specs.Lanes.{IsSound};

    ghost Value = { State };

    ghost view = { λ d. d.cluster };

    ghost invariant = { λ d. IsSound d.cluster };
}

impl Dlm {
    /// What holds of it after each event holds of it at any time.
    pub fn keeps_the_rules(&self)
        ensures sound { IsSound self.now }
        ensures safe { BeliefsGoTogether self.now }
    {
        let _cluster = &self.cluster;
    }

    /// A core of the nodes 1 to `nodes`, at most 255, where nobody has asked for anything. Recoveries go by
    /// `BlockRule::OfHolders`. The one error is `NoMemory`.
    pub fn new(alloc: Global, nodes: u8) -> Result<Dlm, NoMemory>
        requires { 1 ≤ nodes }
        ensures { IfOk result (λ d. d ≡ start BlockRule.OfHolders nodes) }
    {
        Dlm::with_rule(alloc, BlockRule::OfHolders, nodes)
    }

    /// The same, where recoveries go by this rule. The one error is `NoMemory`.
    pub fn with_rule(alloc: Global, rule: BlockRule, nodes: u8) -> Result<Dlm, NoMemory>
        requires { 1 ≤ nodes }
        ensures { IfOk result (λ d. d ≡ start rule nodes) }
    {
        Ok(Dlm {
            cluster: Cluster::new(alloc, rule, nodes)?,
        })
    }

    /// Plays an event, and answers as `Told` says. The tables go by calls of the lock manager that they may take, by the
    /// recovery of value blocks, and by what a death takes away. The one error is `NoMemory`, and after it nothing has changed.
    pub fn step(&mut self, alloc: Global, e: &Event) -> Result<Told, NoMemory>
        ensures after { OnOk result (self.new ≡ after e.now self.old) }
        ensures calls { OnOk result (GoesByCalls e.now self.old self.new) }
        ensures told { IfOk result (λ t. t ≡ told_of e.now self.old) }
        ensures err { OnErr result (self.new ≡ self.old) }
    {
        let mut next = self.cluster.copy(alloc)?;
        let told = next.act(alloc, *e)?;
        self.cluster = next;
        Ok(told)
    }

    /// The notices that the masters have now: for each ask that waits, one to each owner whose lock at the master is in its way.
    /// They are hints, which may be sent late, twice or not at all, since nothing rests on them. The one error is `NoMemory`.
    pub fn notices(&self, alloc: Global) -> Result<Vec<Notice>, NoMemory>
        ensures { IfOk result (λ v. v.items ≡ notices self.now) }
    {
        self.cluster.notices(alloc)
    }
}
