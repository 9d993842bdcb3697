// What a booking promises beyond its contract: laws about its definition, over those of a scored win. No code.
#![tactic(auto)]
