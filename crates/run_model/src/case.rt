//! What the definitions say where it is easily missed.

ghost use Rattle.run_model.specs.Cases.{Cases};

/// What each of the programs in `specs/Cases.antt` does.
pub fn cases_are_decided()
    ensures { Cases }
{}
