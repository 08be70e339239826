// The sample network of document 01, "The sample network", and its marked cases. No code: everything is in specs/.
#![tactic(auto)]
