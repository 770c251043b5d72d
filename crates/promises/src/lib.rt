// Every promise in one record, and that they are kept: see specs/. No code.
#![tactic(auto)]
