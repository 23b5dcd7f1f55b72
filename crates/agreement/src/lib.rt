// Demand 3: agreement of all learners, over the steps that the contracts of acceptor, view change and learner promise. It has no code.
#![tactic(auto)]
