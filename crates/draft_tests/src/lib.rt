// Code that holds drafts: on every way out each draft is posted, handed on or torn up.
#![tactic(auto)]

mod holding;

pub use holding::{draft_two, post_or_tear};
