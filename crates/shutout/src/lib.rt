// Wrong programs that the contracts shut out stand in specs/, in the order of specs/Lib.antt; this crate has no code.
#![tactic(auto)]
