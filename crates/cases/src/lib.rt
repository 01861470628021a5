// The starred cases of document 01: specs/ lists them, proofs/ has the one fact over the list.
#![tactic(auto)]
