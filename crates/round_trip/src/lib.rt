// Export and import together, as a theorem.
#![tactic(auto)]

ghost use Rattle.round_trip.specs.RoundTrip.{RoundTrip};

// That import after export gives the bytes back: it does nothing when called.
pub fn round_trip()
    ensures { RoundTrip }
{}
