// Renamed hands: laws that the readings of a renamed hand are the readings of the hand, renamed. No code of its own.
#![tactic(auto)]
