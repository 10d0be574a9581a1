// What later requests ask, as definitions and theorems on the rules: the index of the second sequence's places. There is no code here.
#![tactic(auto)]
