// The crate is theory: its definitions and lemmas stand in specs/.
#![tactic(auto)]
