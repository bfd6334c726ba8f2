// Every call keeps the rules of a sound store: laws in specs/.
#![tactic(auto)]
