// Two stores that are alike give the same answers to the same calls and stay alike: laws in specs/.
#![tactic(auto)]
