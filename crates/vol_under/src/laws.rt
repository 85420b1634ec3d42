//! The laws, each a statement for every value that it speaks of.

ghost use Rattle.std.specs.Prelude.{ℕ, List, Option};
ghost use Rattle.lock_db.specs.declared.name.LockName.{LockName};
ghost use Rattle.plain_cat.specs.declared.command.Cmd.{Cmd};
ghost use Rattle.plain_cat.specs.declared.cat.Cat.{Cat};
ghost use Rattle.vol_spell.specs.Owners.{Things};
ghost use Rattle.vol_parts.specs.declared.geometry.Geometry.{Geometry};
ghost use Rattle.vol_under.specs.Keeping.{IdleLawful, RestStands, MountStands, NodesAlike, WriteKeeps, CommitKeeps, StopKeeps, BitsKeep, HeldStands, LookKeeps, PlanKeeps, GrantKeeps, ReadyKeeps};
ghost use Rattle.vol_under.specs.Ending.{OpensKeep, OutsideMayLeak, LeakKeeps, DeathKeeps};
ghost use Rattle.vol_under.specs.Answering.{AnswerKeeps};
ghost use Rattle.vol_under.specs.Refilling.{TakesClusters, GivesClusters, TakesNumbers, GivesNumbers};
ghost use Rattle.vol_under.specs.Shortage.{OutAlike, FreeByBits};
ghost use Rattle.vol_under.specs.Opens.{StagesKeepOpens};
ghost use Rattle.vol_under.specs.Stopping.{DriveSpells, WorldStops};
ghost use Rattle.vol_under.specs.Chains.{anywhere, StepsReach, StepsLawful, StepsReply, StepKinds};
ghost use Rattle.vol_under.specs.Filing.{FileTakes, FileGives};
ghost use Rattle.vol_under.specs.Series.{BodySeries};
ghost use Rattle.vol_under.specs.Freeing.{OutsideSeries, RefillStep, FreeSeries};

/// A node that has no plan is lawful.
pub fn idle_lawful()
    ensures { IdleLawful }
{}

/// Blocks that spell a catalogue, with nothing outside, are the drive of nodes that have nothing under way.
pub fn rest_stands()
    ensures { RestStands }
{}

/// A volume of 64 to 65,536 blocks in which nothing fatal is found is the drive of nodes that have nothing under way, with the
/// catalogue that its blocks tell.
pub fn mount_stands()
    ensures { MountStands }
{}

/// Nodes that are alike one by one have the same drive.
pub fn nodes_alike()
    ensures { NodesAlike }
{}

/// The next write of a node's plan leaves the catalogue of the history, and the command has one write done more.
pub fn write_keeps()
    ensures { WriteKeeps }
{}

/// What a node's writes done leave of the committed blocks is committed in their place, and the other nodes have under way what
/// they had.
pub fn commit_keeps()
    ensures { CommitKeeps }
{}

/// Where a node's command ends, by its answer or by the node's death, the catalogue is the one of the stage after its writes
/// done, and the other nodes have under way what they had.
pub fn stop_keeps()
    ensures { StopKeeps }
{}

/// A bitmap write of a node without a plan, which moves clusters or file numbers between the free ones and the node's stock,
/// leaves the catalogue.
pub fn bits_keep()
    ensures { BitsKeep }
{}

/// A write to the storage bitmap that clears bits of free clusters brings them to the stock of the node that writes.
pub fn takes_clusters()
    ensures { TakesClusters }
{}

/// A write to the storage bitmap that sets the bits of clusters of the stock makes them free.
pub fn gives_clusters()
    ensures { GivesClusters }
{}

/// A write to the index-file bitmap that sets bits of free file numbers brings them to the stock of the node that writes.
pub fn takes_numbers()
    ensures { TakesNumbers }
{}

/// A write to the index-file bitmap that clears the bits of file numbers of the stock, whose header slots are free, makes them free.
pub fn gives_numbers()
    ensures { GivesNumbers }
{}

/// A block under a lock that a node holds, and that the node has not written, stands on the drive as it is committed.
pub fn held_stands()
    ensures { HeldStands }
{}

/// What a node without a plan looks at, under a lock that it holds, is a committed block.
pub fn look_keeps()
    ensures { LookKeeps }
{}

/// A node may decide on writes that are lawful, to blocks whose locks it holds.
pub fn plan_keeps()
    ensures { PlanKeeps }
{}

/// A node may be granted more locks.
pub fn grant_keeps()
    ensures { GrantKeeps }
{}

/// A node without a plan may begin a command, and give back locks of which none guards what it has seen.
pub fn ready_keeps()
    ensures { ReadyKeeps }
{}

/// What is outside at a node may be told by other lists of the same things, so that a command may take of the stock.
pub fn out_alike()
    ensures { OutAlike }
{}

/// Where nothing is outside at any node, as many clusters are free by the catalogue as have their bits set, and there are as many
/// file numbers to take as have their bits clear. A number whose bit is clear is a free one of the catalogue.
pub fn free_by_bits()
    ensures { FreeByBits }
{}

/// What the channels have open is no matter of the drive.
pub fn opens_keep()
    ensures { OpensKeep }
{}

/// Where all writes of a plan are done, the reply that goes with them is an answer of the command, and the catalogue is the one
/// after it.
pub fn answer_keeps()
    ensures { AnswerKeeps }
{}

/// What a node has outside is free by the catalogue, so that it may leak.
pub fn outside_may_leak()
    ensures { OutsideMayLeak }
{}

/// Where a node that has stopped dies, its stock is leaked.
pub fn leak_keeps()
    ensures { LeakKeeps }
{}

/// A node's death leaves the catalogue of the stage after its writes done, with what the node had outside leaked, and the other
/// nodes have under way what they had.
pub fn death_keeps()
    ensures { DeathKeeps }
{}

/// No stage of a command changes what the channels have open, but that the channel of a CLOSE may have nothing open any more.
pub fn stages_keep_opens()
    ensures { StagesKeepOpens }
{}

/// The drive as it is spells the catalogue to which that of the history goes where every node stops, in whatever order, each at
/// the stage of its writes done.
pub fn drive_spells()
    ensures { DriveSpells }
{}

/// Where the world stops, the drive is left with the catalogue to which that of the history goes where every node dies, in
/// whatever order, each at the stage of its writes done.
pub fn world_stops()
    ensures { WorldStops }
{}

/// A chain of writes, each of which takes blocks that spell a stage to blocks that spell the next, leaves its stages.
pub fn steps_reach()
    ensures { StepsReach anywhere }
{}

/// A plan that is such a chain, on all blocks of its law, is lawful.
pub fn steps_lawful()
    ensures { StepsLawful }
{}

/// The reply that goes with the end of such a chain is the plan's.
pub fn steps_reply()
    ensures { StepsReply }
{}

/// Each kind of write is a step of a plan, under the lock of the file whose header it is.
pub fn step_kinds()
    ensures { (g : Geometry) (n : ℕ) (cmd : Option Cmd) (locks : List LockName) (c : Cat) (stock : Things) → StepKinds g n cmd locks c stock }
{}

/// Where all that a command took goes into a file, the owners move as a header may move them, and the stock alone is left
/// outside.
pub fn file_takes()
    ensures { FileTakes }
{}

/// Where things of a file go outside, the owners move as a header may move them, and those things are outside besides.
pub fn file_gives()
    ensures { FileGives }
{}

/// Writes in turn to the blocks of one file are steps of a plan, and so are the writes behind them that are steps on what they
/// leave.
pub fn body_series()
    ensures { BodySeries anywhere }
{}

/// Writes in turn to blocks that a node has outside are steps of a plan, and so are the writes behind them that are steps on what
/// they leave.
pub fn outside_series()
    ensures { OutsideSeries anywhere }
{}

/// A bitmap write of the space rule is a step of a plan, with what the command took in place of the stock.
pub fn refill_step()
    ensures { RefillStep }
{}

/// Writes in turn to the storage bitmap that make clusters of a command free are steps of a plan, and so are the writes behind
/// them that are steps on what they leave.
pub fn free_series()
    ensures { FreeSeries anywhere }
{}
