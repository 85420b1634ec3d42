//! The laws, each a statement for every value that it speaks of.

ghost use Rattle.vol_under.specs.Planned.{BitsKeepWithPlan, LookKeepsWithPlan, ForgetKeeps, LowerKeeps};

/// A bitmap write of a node, which moves clusters or file numbers between the free ones and the node's stock, leaves the catalogue,
/// also in the middle of the node's plan.
pub fn bits_keep_with_plan()
    ensures { BitsKeepWithPlan }
{}

/// What a node looks at, under a lock that it holds, is a committed block, also in the middle of its plan.
pub fn look_keeps_with_plan()
    ensures { LookKeepsWithPlan }
{}

/// A node may forget blocks that it has seen, where its plan is lawful by the others.
pub fn forget_keeps()
    ensures { ForgetKeeps }
{}

/// A node may lower the lock of the bitmaps and that of the stocks, where it has seen no bitmap and its plan writes to none.
pub fn lower_keeps()
    ensures { LowerKeeps }
{}
