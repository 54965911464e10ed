// A recording that comes in windows, as a theorem.
#![tactic(auto)]

ghost use Rattle.windows.specs.Windows.{Windows};

// That a recording comes to the same however it is cut into windows, and which of it more bytes may change: it does nothing when called.
pub fn any_windows()
    ensures { Windows }
{}
