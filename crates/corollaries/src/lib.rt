// No code: what a reader takes from the claims, in the paper's own figures and for every mode and size, is stated in specs/ and proved in proofs/.
#![tactic(auto)]
