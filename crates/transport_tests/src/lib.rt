// A layer over any transport, a function over any two, and tests of the mailbox and the bag.
#![tactic(auto)]

mod forwards;
mod through;

pub use forwards::forward;
pub use through::Through;

#[cfg(test)]
mod bag_tests;
#[cfg(test)]
mod layer_tests;
#[cfg(test)]
mod mailbox_tests;
#[cfg(test)]
mod size_tests;
#[cfg(test)]
mod steps;
