// That the contracts give one answer, as a theorem over the contracts themselves.
#![tactic(auto)]

ghost use Rattle.determinacy.specs.Determinacy.{Determinacy};

// Each public function's contract gives one answer for each input: it does nothing when called.
pub fn one_answer()
    ensures* { Determinacy 𝓛 }
{}
