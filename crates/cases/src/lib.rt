// Cases of a plant, computed with its definitions: a wrong one fails. Laws alone; nothing rests on them.
#![tactic(auto)]
