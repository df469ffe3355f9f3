//! The rows of a desk in the tables of its database: what that database holds, and what the statements that write rows do. There is
//! no code here; `sql_write` and `sql_read` are proved by these definitions and lemmas.
#![tactic(auto)]
