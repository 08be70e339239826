// Demand 3 as a customer reads it, from the check's answer to the search's: no code. Everything stands in specs/Promises.antt.
#![tactic(auto)]
