// What 8 and 1 tell whoever holds the service cable, as a theorem.
#![tactic(auto)]

ghost use Rattle.cut_line.specs.CutLine.{CutLine};

// That a program cut on its way is refused with 8, and that nothing sent behind a bad number mends it: it does nothing when called.
pub fn cut_or_bad()
    ensures { CutLine }
{}
