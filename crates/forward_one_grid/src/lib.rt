// Level one's grid where it lies, in DC and low-pass: its numbers read and stored by square and coefficient, by two and two, and window by window.
#![tactic(auto)]

pub mod lent; // lent.rt: the grid lent to be read
pub mod places; // places.rt: two numbers of one square and two of another; windows
pub mod stored; // stored.rt: the grid's numbers stored
