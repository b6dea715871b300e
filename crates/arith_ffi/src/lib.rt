// The arithmetic under names that a program in another language can call: of each function the same definition, and nothing that the caller
// owes. The modules are by the crates whose functions are exported: of_shape is of linalg too, of_strain of inverse. C has no generic
// function: what is one for every size below has a name for each size here.
#![tactic(auto)]

mod of_real;
mod of_root;
mod of_shape;
mod of_strain;
mod of_vector;
