ghost use Rattle.std.specs.Prelude.{◌≤◌};

use paths::Paths;

mod calls;
mod paths;
mod questions;

// Keeps the paths that are planned, and the count of spoilt letters.
#[derive(Drop)]
pub struct Book {
    spoilt: u64,
    paths: Paths,
    ghost counted: { spoilt ≤ 9223372036854775807 },
}
