// What scoring a win promises, as laws about the definitions that the operations' contracts are equations with. Nothing to run.
#![tactic(auto)]
