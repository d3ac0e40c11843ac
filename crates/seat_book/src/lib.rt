//! Who carries what, for tables and queues of seats: definitions and proofs, and no code.
//!
//! Seats carry parts, each part has a place, and a law speaks of a shared structure and of the part at each place (`specs/Book.antt`).
//! Steps, splits and joins of seats keep the book (`proofs/Book.antt`), whatever the structure, the parts and the law are.
#![tactic(auto)]
