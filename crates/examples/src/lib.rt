// The worked examples of the requirements, proved from the definitions: see specs/. No code.
#![tactic(auto)]
