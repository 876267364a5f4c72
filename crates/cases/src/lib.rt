// P1 to P12 of document 01 as one table of cases, computed from the definitions; no code.
#![tactic(auto)]
