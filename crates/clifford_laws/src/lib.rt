// Laws of tableau records: the way back, gates on bytes, a gate in place, and the readings. No code runs from here.
#![tactic(auto)]
