// No code: values that the definitions give, stated in specs/ and computed in proofs/. Each is from the papers or from the independent reading of them in rust/reference.
#![tactic(auto)]
