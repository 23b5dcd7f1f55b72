// The laws of a site's calls, over the call lists of demand 3, that its claim does not need. It has no code.
#![tactic(auto)]
