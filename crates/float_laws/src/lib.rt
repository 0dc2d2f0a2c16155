// Laws alone: that the float steps are the standards', and how sums, products and casts keep order and lose digits.
#![tactic(auto)]
