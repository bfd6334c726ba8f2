// Stores in which one record of one directory changes: laws in specs/.
#![tactic(auto)]
