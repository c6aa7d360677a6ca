// Laws of previews: the row that they show, and where they are refused. No code runs from here.
#![tactic(auto)]
