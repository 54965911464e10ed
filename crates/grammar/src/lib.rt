// The grammar of formulas typed as text: definitions, and what holds of them, as a theorem.
#![tactic(auto)]

ghost use Rattle.grammar.specs.Readings.{Readings};

// That every text has one reading or none, and one that has none is bad at one place: it does nothing when called.
pub fn one_reading()
    ensures { Readings }
{}
