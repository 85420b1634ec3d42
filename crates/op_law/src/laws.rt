//! The laws, each a statement for every value that it speaks of.

ghost use Rattle.op_law.specs.Looking.{LooksReply};
ghost use Rattle.op_law.specs.Going.{SeenGoesOn};

/// A command that writes nothing answers on the drive with the reply that is its answer on all blocks that have what it has
/// seen.
pub fn looks_reply()
    ensures { LooksReply }
{}

/// What a command has seen fits it at first, where nothing is seen, and still where its next need is met: the lock was granted,
/// the block was looked at, space was given or refused.
pub fn seen_goes_on()
    ensures { SeenGoesOn }
{}
