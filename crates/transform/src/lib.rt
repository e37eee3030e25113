// The transform of whole pictures, as definitions (specs/) and laws (proofs/): no code. The code of each direction is held to these definitions.
#![tactic(auto)]
