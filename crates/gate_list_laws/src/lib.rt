// Laws of gate lists: what is admitted, where a chain comes back, and strings sent through a run. No code runs from here.
#![tactic(auto)]
