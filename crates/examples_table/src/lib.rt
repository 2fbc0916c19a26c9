// The starred sheets of document 01 as one table, proved by computation (specs/).
#![tactic(auto)]
