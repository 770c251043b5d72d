// Definitions and theorems alone, in specs/: the best paths of a finite graph whose costs add up and are ordered.
#![tactic(auto)]
