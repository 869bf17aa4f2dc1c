//! The statements that SHOW GRANTS prints of an account. The code here is none yet; the definitions stand in the specifications,
//! with worked examples that the checker computes.
//!
//! MySQL 8.0 Reference Manual, "SHOW GRANTS Statement".
#![tactic(auto)]
