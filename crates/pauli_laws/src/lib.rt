// Laws of string records and of text: what the questions admit, the readings of text, products in either order. No code runs from here.
#![tactic(auto)]
