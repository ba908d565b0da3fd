//! What holds of every run.

ghost use Rattle.run_model.specs.Laws.{ArrivalsKeepMask, EndIsEnd, FramesStand, HasStart, IntegersLieInTheirTypes, MaskComesBack, PrefixesAreRuns};

/// Every program has a world that its runs start from.
pub fn every_program_starts()
    ensures { HasStart }
{}

/// Each frame of a world of a run stands at a position of its function.
pub fn frames_stand_at_positions()
    ensures { FramesStand }
{}

/// Each integer that a node has as its value lies in the node's type, and errno in int.
pub fn integers_lie_in_their_types()
    ensures { IntegersLieInTheirTypes }
{}

/// When a handler returns, its thread has the saved mask and goes on where it was.
pub fn mask_comes_back()
    ensures { MaskComesBack }
{}

/// The frame of an arrival keeps the mask and the errno of its thread before it, and the signal was not blocked.
pub fn arrivals_keep_mask()
    ensures { ArrivalsKeepMask }
{}

/// What comes before a place in a run is a run.
pub fn prefixes_are_runs()
    ensures { PrefixesAreRuns }
{}

/// Nothing happens in a process that has ended.
pub fn end_is_end()
    ensures { EndIsEnd }
{}
