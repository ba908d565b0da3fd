//! What holds of single steps.

ghost use Rattle.run_model.specs.StepLaws.{ChildrenAreAlone, ExitEnds, HandlersAreMasked, KillIsNotCaught, OrderOfForkHandlers};

/// While a handler runs, what its thread had blocked is blocked, and what is in its `sa_mask`, and mostly the signal itself.
pub fn handlers_are_masked()
    ensures { HandlersAreMasked }
{}

/// No call sets a disposition of SIGKILL or SIGSTOP.
pub fn kill_is_not_caught()
    ensures { KillIsNotCaught }
{}

/// Prepare handlers run in the opposite order of their registration, parent and child handlers in that order.
pub fn order_of_fork_handlers()
    ensures { OrderOfForkHandlers }
{}

/// A child has the calling thread alone, and is confined where its parent is or has more than one thread.
pub fn children_are_alone()
    ensures { ChildrenAreAlone }
{}

/// In a function that never returns the process may end at once, without exit processing.
pub fn exit_ends()
    ensures { ExitEnds }
{}
