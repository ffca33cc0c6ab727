// Laws of reading and writing records: they stand in specs/, and there is no code.
#![tactic(auto)]
