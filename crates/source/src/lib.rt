// The source's schemas, and that each accepted call is one of them: specs/ alone.
#![tactic(auto)]
