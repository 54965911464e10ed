// What the rules of DL, OS and FL come to, as laws and a theorem.
#![tactic(auto)]

ghost use Rattle.timing.specs.OnTime.{OnTime};

// That a delay counts from the change, and comes neither early nor late: it does nothing when called.
pub fn on_time()
    ensures { OnTime }
{}
