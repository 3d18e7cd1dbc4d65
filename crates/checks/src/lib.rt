// What is asked of a table as a whole, question 32 and touching, with the links of forbidden boxes that touching walks (document 01,
// "Checker" and "Analysis"); and the model's ceiling on passes (document 02, T-07). These functions serve the crates above and are
// no calls of outsiders: what they are lent has passed the questions before.
#![tactic(auto, using(crate::proofs::Model::of_model, crate::proofs::Loops::all_steps))]

mod ceiling;
mod touch;
mod valid;

pub use ceiling::ceiling_of;
pub use touch::{Links, link, touching};
pub use valid::table_ok;
