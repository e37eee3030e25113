// What the core transform is made of, each operator in both directions: a figure's steps, and the same steps undone last to first.
#![tactic(auto)]

pub mod steps; // steps.rt: the expressions that the figures' lines share
pub mod transform; // transform.rt: the 2 x 2 Hadamard, odd and odd-odd operators (Figures 4.4 to 4.6)
