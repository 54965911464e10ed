// Expressions as they are written in a program: definitions, and that they read back, as a theorem.
#![tactic(auto)]

ghost use Rattle.writing.specs.Expressions.{ReadBack};

// That the bytes of an expression are read as that expression: it does nothing when called.
pub fn read_back()
    ensures { ReadBack }
{}
