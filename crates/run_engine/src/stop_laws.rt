//! Laws of a run that stops: its drive mends as a catalogue with every answered command.

ghost use Rattle.run_engine.specs.TornLaws.{RunsCanStop, TornWorldsCanStop, TornRunsCanStop};

/// A run can stop wherever it is: its drive mends as the catalogue that is left. It leaves one to which its history replays, with the
/// death of each node that lives behind it: so this has each answered command, and of each command under way the stage of its writes done.
pub fn runs_can_stop()
    ensures { RunsCanStop }
{}

/// A world of which a write failed can stop there, whatever order of events has led to it: the image has its drive, or, if the block landed,
/// that of the world after the write, with the same answers; and either can stop.
pub fn torn_worlds_can_stop()
    ensures { TornWorldsCanStop }
{}

/// A run of which a write failed can stop there. The image has the drive from before the write, or, if its block landed, that from after it.
/// Either is the drive of a world of the same walk with the same answers, which can stop.
pub fn torn_runs_can_stop()
    ensures { TornRunsCanStop }
{}
