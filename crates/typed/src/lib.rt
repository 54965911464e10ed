// What is promised of formulas typed as text, as a theorem.
#![tactic(auto)]

ghost use Rattle.typed.specs.Typed.{Typed};

// That a text is answered in one way, refused exactly where it must be, and its nodes read back as its tree: it does nothing when called.
pub fn as_typed()
    ensures { Typed }
{}
