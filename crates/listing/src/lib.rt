// The theorem about captures: what the steps hand out is the listing. It has no function; its statements and proofs are in specs/ and
// proofs/.
#![tactic(auto)]
