// All that is promised, as one theorem. Definitions and laws alone.
#![tactic(auto)]
