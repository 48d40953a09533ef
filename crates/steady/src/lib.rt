// No function: what holds of every session over all calls. A session in range stays in range, and how a stream is cut into pieces
// changes nothing; taking output between the calls changes the waiting reply and what is put out, and nothing else. The definitions are
// in specs/, the theorems in proofs/.
#![tactic(auto)]
