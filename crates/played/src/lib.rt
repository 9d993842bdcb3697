// The played hands of the scope paper: a table of hands and what they come to, proved by one claim about the definitions. No code needs it here.
#![tactic(auto)]
