// Meeting policies, the order and what reconciling gives, on decoded data; no code.
#![tactic(auto)]
