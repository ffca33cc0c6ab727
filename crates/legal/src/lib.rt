// Loops, schedules and what makes one legal: definitions and laws stand in specs/, and there is no code.
#![tactic(auto)]
