// The row functions under names that a program in another language can call: of each function the same definition, and nothing that the
// caller owes. A row's phases go on the bytes of its record, as they ship; beside them stands what they are made of.
#![tactic(auto)]

mod mirrors;
mod of_cell;
mod of_energy;
mod of_gradients;
mod of_row;
