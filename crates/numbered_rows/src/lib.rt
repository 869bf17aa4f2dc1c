//! Rows of the grant tables as tables of numbered accounts: definitions and laws.
#![tactic(auto)]
