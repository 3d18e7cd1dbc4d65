// What a C program sees: decide and check on bytes, and the other calls with their replies as numbers. Definitions and laws alone.
#![tactic(auto)]
