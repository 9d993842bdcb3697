// Laws for a referee: the list of readings has each reading that the tiles admit, once, in the order of
// records, and nothing else; its tiles are among the tiles in play; and how many bytes the records of a hand need at most. No code of its own.
#![tactic(auto)]
