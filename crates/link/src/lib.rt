// Two ends and two pipes: what one role writes the other reads back, and what two joined ends hand out. It has no function.
#![tactic(auto)]
