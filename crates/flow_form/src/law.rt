//! The law that a function's edges stay in it.

ghost use Rattle.flow_form.specs.Laws.{EdgesStay};

/// Each edge of a function leads to a position of that function.
pub fn edges_stay_in_their_function()
    ensures { EdgesStay }
{}
