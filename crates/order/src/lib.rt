// The numbers of a program in reading order, told without a reader: acceptance is by them alone, as a theorem.
#![tactic(auto)]

ghost use Rattle.order.specs.Acceptance.{InOrder};

// That acceptance answers what the numbers of a program, in reading order, say: it does nothing when called.
pub fn in_order()
    ensures { InOrder }
{}
