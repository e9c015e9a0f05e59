// The fields of texts and files: a type and one reading function for each. A value of such a type keeps its rule. It is
// `read` by name, since at a call that says more than a conversion would.
#![tactic(auto)]

pub mod charset;
pub mod fault;
pub mod manufacturer_id;
