// Calls that differ in nothing but from whom their tiles came are listed, scored and named alike: laws about the operations' definitions. No code of its own.
#![tactic(auto)]
