ghost use Rattle.std.specs.Prelude.{◌≡◌};
ghost use Rattle.letter.specs.Changes.{path_of};
ghost use Rattle.runs.specs.Calls.{path_in};
ghost use Rattle.std.specs.Option.{option_map};

use super::ValidPath;
use letter::Path;
use planner::Draft;

impl ValidPath {
    // The path of these values; none where they are out of range.
    pub fn new(train: u32, section: u32, enter: u32, leave: u32) -> Option<ValidPath>
        ensures { option_map path_in result ≡ path_of train section enter leave }
    {
        let path = Path::new(train, section, enter, leave)?;
        Some(ValidPath { path })
    }

    pub fn path(&self) -> Path
        ensures { result ≡ path_in self.now }
    {
        self.path
    }

    // A draft of it.
    pub(crate) fn draft(&self) -> Draft
        ensures { result.path ≡ path_in self.now }
    {
        Draft::new(
            self.path.train,
            u32::from(self.path.section),
            self.path.enter,
            self.path.leave,
        )
        .unwrap()
    }
}
