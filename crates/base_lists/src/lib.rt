// Laws (specs/): a list by a rule, the loops that fill an array by one, the elements at which a test
// holds, the run of a machine. No code.
#![tactic(auto)]
