// The bare record of a row's calls, what it means that a row agrees with it, and that each call keeps them agreeing.
#![tactic(auto)]
