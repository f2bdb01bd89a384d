// What each public call answers and leaves in its buffer, and what the program prints; no code.
#![tactic(auto)]
