// What the desk writes for a sheet: definitions and known results, in specs/ and proofs/. The code is in desk.
#![tactic(auto)]
