// The mathematics of the store stands in specs/, in the order of specs/Lib.antt, and the laws that edits break in proofs/; this crate has no code.
#![tactic(auto)]
