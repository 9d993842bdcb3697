// Two tables agree: laws about the operations' definitions, for a win and the same win renamed. No code of its own.
#![tactic(auto)]
