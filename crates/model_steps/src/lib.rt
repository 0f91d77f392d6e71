// Laws on what a call comes to (proofs/), from the plan that the model decides and the limits that it tests. There is no code here.
#![tactic(auto)]
