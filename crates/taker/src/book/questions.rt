ghost use Rattle.std.specs.Prelude.{◌≡◌};
ghost use Rattle.std.specs.List.{slice_get};
ghost use Rattle.taker.specs.Books.{book_page, count_of, paths_of};

use super::Book;
use letter::Path;

impl Book {
    // How many letters were spoilt.
    pub fn count(&self) -> u64
        ensures { result ≡ count_of (book_page self.now) }
    {
        self.spoilt
    }

    // The paths, in ascending order of train and section.
    pub fn paths(&self) -> &[Path]
        ensures { result.now ≡ paths_of (book_page self.now) }
    {
        self.paths.as_slice()
    }

    // Path i, from 0; none past the last.
    pub fn path(&self, i: usize) -> Option<Path>
        ensures { result ≡ slice_get (paths_of (book_page self.now)) i }
    {
        self.paths().get(i).copied()
    }
}
