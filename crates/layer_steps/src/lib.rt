// What a layer over a mapper holds before and after each call, from what its pool lends and what the mapper below answers and leaves.
#![tactic(auto)]
