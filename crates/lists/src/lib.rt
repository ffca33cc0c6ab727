// Definitions and laws on lists alone: they stand in specs/, and there is no code.
#![tactic(auto)]
