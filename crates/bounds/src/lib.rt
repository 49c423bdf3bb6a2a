// Nothing to run: the crate is its specs/. What the bounds of the image check come to, for the crates above.
#![tactic(auto)]
