// No function: what the other crates say and prove in common. The definitions are in specs/, their laws in proofs/.
#![tactic(auto)]
