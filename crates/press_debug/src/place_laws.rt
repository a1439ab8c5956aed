//! The law of a debugger, the contract of a function that does nothing.
ghost use Rattle.press_debug.specs.Places.{PlacesGoOn};

/// Behind whatever mixture of its calls a debugger stands behind the first items of the trace of its stream at its end: the state is
/// that of the last of them (after power on where there is none), and the recent kinds are those of the last 64. Where no
/// step is left these items are the whole trace. Each item has exactly one kind.
pub fn places()
    ensures { PlacesGoOn }
{}
