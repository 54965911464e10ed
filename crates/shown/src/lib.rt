// Expressions as text, for the listing of a program: definitions, and what holds of them, as a theorem.
#![tactic(auto)]

ghost use Rattle.shown.specs.Show.{ShowFacts};

// That what is shown of an expression reads back, with the fewest parentheses that keep the reading: it does nothing when called.
pub fn show_facts()
    ensures { ShowFacts }
{}
