//! What is proved of all runs of flat programs. Each law is the contract of a function with an empty body.

ghost use Rattle.flat_programs.specs.Breaches.{NoRunBreaksARule};
ghost use Rattle.flat_programs.specs.Examples.{RandOverRand, RandInExit, RandAboveHandler, GetpidChangesErrno, NestsAndReturns};
ghost use Rattle.flat_programs.specs.WholeProgram.{FlatIsWhole};
ghost use Rattle.flat_programs.specs.Laws.{MaskComesBack, ErrnoIsInt};

/// A flat program is a program of the whole grammar, and spells the same tokens.
pub fn flat_is_whole()
    ensures { FlatIsWhole }
{}

/// Where the condition on the handlers holds, no run of the program breaks a rule.
pub fn soundness()
    ensures { NoRunBreaksARule }
{}

/// Whenever no handler runs, the mask is the one with which main began.
pub fn mask_comes_back()
    ensures { MaskComesBack }
{}

/// At any time of a run errno is a value of int.
pub fn errno_is_int()
    ensures { ErrnoIsInt }
{}

/// A handler that calls rand can interrupt itself in rand, and breaks a rule.
pub fn rand_over_rand()
    ensures { RandOverRand }
{}

/// A handler that calls rand can interrupt the exit processing behind main's return, and breaks a rule.
pub fn rand_in_exit()
    ensures { RandInExit }
{}

/// It breaks the rule there also where it interrupted another handler that interrupted the exit processing.
pub fn rand_above_handler()
    ensures { RandAboveHandler }
{}

/// A handler that calls getpid can return with another errno than at its arrival, and breaks a rule.
pub fn getpid_changes_errno()
    ensures { GetpidChangesErrno }
{}

/// In an accepted program handlers can interrupt main, each other and themselves, and return.
pub fn nests_and_returns()
    ensures { NestsAndReturns }
{}
