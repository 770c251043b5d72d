// Cards that lack one arc: what a word's answer is where its candidate does not travel that arc, see specs/. No code.
#![tactic(auto)]
