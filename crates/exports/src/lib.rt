// What programs in C and Rust call, with answers as structs of numbers. C has no Option and no Result, so the number of a
// refusal stands first in each, 0 where nothing is refused, and what is not given is 0. C lends a column in its parts, and
// is told how much of a buffer was filled, since its structs hold no slice.
#![tactic(auto)]

pub mod changes;
pub mod checks;
pub mod columns;
pub mod combinations;
pub mod layouts;
pub mod listed;
pub mod reductions;
pub mod reports;
pub mod sheets;
