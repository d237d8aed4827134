//! A function whose operations are replaced by sound templates agrees with its source.
#![tactic(auto)]
