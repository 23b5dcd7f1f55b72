// The laws of the leader that no proof of its code needs. It has no code.
#![tactic(auto)]
