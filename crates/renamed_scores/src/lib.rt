// Renamed wins: laws that a reading and its renamed one have the same han, fu and level. No code of its own.
#![tactic(auto)]
