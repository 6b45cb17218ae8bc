// Device pages for a buffer that lands at its own address: what the chooser takes, and that the laws are then kept.
#![tactic(auto)]
