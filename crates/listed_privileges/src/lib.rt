//! Lists of privileges that are made of tests: which static privileges, which dynamic ones, and on which columns. The code here
//! is none yet; the definitions stand in the specifications.
//!
//! MySQL 8.0 Reference Manual, "GRANT Statement".
#![tactic(auto)]
