// What was before requests T-02 and T-06, and what they left as it was. Definitions and laws alone; nothing else rests on them.
#![tactic(auto)]
