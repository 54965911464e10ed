// The form of a listing.
#![tactic(auto)]
