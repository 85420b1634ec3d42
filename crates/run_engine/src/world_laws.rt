//! Laws of worlds: over, stopped or mended, they lead to one catalogue.

ghost use Rattle.run_engine.specs.OverLaws.{OverWorldsMend, StoppedWorldsMend, HaltedIsOne, RebuiltIsMended, StepsKeepTheRules};

/// Once every node of a world is over, so that its drive spells the catalogue to which the history leads with nothing outside at any
/// node, the drive mends as this catalogue does: `rebuild` gives an accepted volume of its mending, by what it counts, and refuses
/// exactly if `[SYSLOST]` lacks room for a lost file. The volume was accepted as it was mounted.
pub fn over_worlds_mend()
    ensures { OverWorldsMend }
{}

/// If a world that keeps the rules stops at any moment, each node that lives dying, its drive mends as the catalogue that is left: the
/// history, with a death of each such node behind it, replays to this one, so it has each answered command, and of each command under
/// way the stage of its writes done; what is outside files and bitmaps is leaked.
pub fn stopped_worlds_mend()
    ensures { StoppedWorldsMend }
{}

/// What is left if a world stops is one catalogue, apart from what channels have open.
pub fn halted_is_one()
    ensures { HaltedIsOne }
{}

/// What `rebuild` makes of blocks is accepted and tells the catalogue to which they mend. It writes so that after each write they mend to
/// the same; so if it was stopped, wherever that was, and is made again, it ends with the same catalogue.
pub fn rebuilt_is_mended()
    ensures { RebuiltIsMended }
{}

/// A world keeps the rules over the step of a node: its turn, or the death that the script has in its place. So if a write of the image
/// failed, and the image has the drive from before the step or from after it, it is the drive of a world that keeps the rules.
pub fn steps_keep_the_rules()
    ensures { StepsKeepTheRules }
{}
