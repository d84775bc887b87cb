// No code: the laws of a system's events. Which way each goes, what it leaves alone, when it is refused, and that it keeps a system well formed.
#![tactic(auto)]
