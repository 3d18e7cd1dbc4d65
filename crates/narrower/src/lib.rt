// What a narrower plant keeps (document 02, T-13). Definitions and laws alone.
#![tactic(auto)]
