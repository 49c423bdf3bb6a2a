// Nothing to run: the crate is its specs/, laws over the definitions of `rules`.
#![tactic(auto)]
