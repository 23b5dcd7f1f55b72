#![tactic(auto)]

// Laws on Boolean tests and on lists that several crates cite. It has no code.
