// What the product promises: theorems alone, one file for each demand. There is no code.
#![tactic(auto)]
