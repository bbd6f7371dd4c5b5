// What a signer reads: the demands, theorem by theorem (proofs/Demands.antt), and the marked examples of the rules, checked in one table. There is no code here; docs/PROMISES.md says each in words.

#![tactic(auto)]
