// No code: what holds of every system that an accepted table and any events lead to.
#![tactic(auto)]
