#![tactic(auto)]

// What document 01 says of jobs, tables, one execution and the check's search, over the number of levels; demand 3. No code.
