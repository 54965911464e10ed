// What import stores of a program, and that it decides about the whole, as a theorem.
#![tactic(auto)]

ghost use Rattle.fronts.specs.Deciding.{FrontDecides};

// That acceptance says of the front of a program what it says of the program: it does nothing when called.
pub fn front_decides()
    ensures { FrontDecides }
{}
