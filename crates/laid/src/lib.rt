// Bytes laid into a buffer, one run after the other: definitions and laws stand in specs/, and there is no code.
#![tactic(auto)]
