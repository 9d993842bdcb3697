// What the unit promises, as laws about the definitions that the operations' contracts are equations with. No code of its own.
#![tactic(auto)]
