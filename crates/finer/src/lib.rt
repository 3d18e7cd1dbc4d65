// What a plant with further cuts keeps (document 02, T-12): a cut never hurts. Definitions and laws alone.
#![tactic(auto)]
