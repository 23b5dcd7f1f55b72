// The laws of the acceptor that no proof of its code needs. It has no code.
#![tactic(auto)]
