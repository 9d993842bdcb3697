// Worked hands, a rulebook's list of examples: rows of hands and what they come to, each proved about the definitions. No code needs it here.
#![tactic(auto)]
