// What calls on names ask of the store: a free number, the place and the room of a new name's record, and the place of an old one. Laws in specs/.
#![tactic(auto)]
