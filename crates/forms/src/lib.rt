// Whole programs as they are written: definitions, and that a program has one form, as a theorem.
#![tactic(auto)]

ghost use Rattle.forms.specs.OneForm.{OneForm};

// That what is written is read back, and that what is read was written so: it does nothing when called.
pub fn one_form()
    ensures { OneForm }
{}
