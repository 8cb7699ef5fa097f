// What the lines of the figure share: how a line ends, and whole shapes of lines.
// Kept as parameters: the nodes' words, the hat and the task. A line's type says what it may do with the nodes (nothing,
// read, write), which one struct of the three, lent to all lines, would hide.
#![tactic(auto)]

pub mod ends;
pub mod shapes;
