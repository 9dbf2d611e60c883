ghost use Rattle.std.specs.Prelude.{◌≡◌, ◌≤◌, true, [], length, is_ok, IfOk, vec_len, vec_capacity};
ghost use Rattle.std.specs.List.Sorted.{IsSearchInRange};
ghost use Rattle.taker.specs.Paths.{ascending, has_place, put_paths, without};
ghost use Rattle.taker.specs.Spots.{spot_of};

use crate::refusal::TakerRefusal;
use letter::Path;
use std::alloc::{AllocError, Global};

// The most paths that a book holds.
const MOST: usize = 32;

// Paths in ascending order, one at most for each train and section.
#[derive(Drop)]
pub(super) struct Paths {
    items: Vec<Path>,
    ghost few: { vec_len items ≤ 32 },
    ghost room: { 32 ≤ vec_capacity items },
    ghost ordered: { ascending items.items ≡ true },
}

impl Paths {
    // No paths. All the memory that they ever use is taken here.
    pub(super) fn new(heap: Global) -> Result<Paths, AllocError>
        ensures { IfOk result (λ p. p.items.items ≡ []) }
    {
        let items = Vec::with_capacity(heap, MOST)?;
        Ok(Paths { items })
    }

    pub(super) fn as_slice(&self) -> &[Path]
        ensures { result.now ≡ self.now.items.items }
    {
        &self.items
    }

    // Puts the path in its place, over the path of its train and section if that is held.
    // Refuses where it is not held and 32 others are.
    pub(super) fn put(&mut self, p: Path) -> Result<(), TakerRefusal>
        ensures value { is_ok result ≡ has_place p self.old.items.items }
        ensures items { self.new.items.items ≡ put_paths p self.old.items.items }
    {
        match self.find(p.train, p.section) {
            Ok(i) => {
                self.items[i] = p;
                Ok(())
            }
            Err(i) => {
                if self.items.len() >= MOST {
                    return Err(TakerRefusal::NoPage);
                }
                self.items.insert(i, p).unwrap();
                Ok(())
            }
        }
    }

    // Takes the path of this train and section away, if it is held.
    pub(super) fn remove(&mut self, train: u32, section: u16)
        ensures { self.new.items.items ≡ without train section self.old.items.items }
    {
        if let Ok(i) = self.find(train, section) {
            self.items.remove(i);
        }
    }

    // Where the path of this train and section stands; else where it would.
    fn find(&self, train: u32, section: u16) -> Result<usize, usize>
        ensures value { result ≡ spot_of train section self.now.items.items }
        ensures within { IsSearchInRange result (length self.now.items.items) }
    {
        search(&self.items, train, section)
    }
}

// The same among ascending paths.
fn search(paths: &[Path], train: u32, section: u16) -> Result<usize, usize>
    requires { ascending paths.now ≡ true }
    ensures value { result ≡ spot_of train section paths.now }
    ensures within { IsSearchInRange result (length paths.now) }
{
    paths.binary_search_by_key(&(train, section), key)
}

// By what paths are ordered and told apart.
fn key(p: &Path) -> (u32, u16)
    ensures { result ≡ (p.now.train, p.now.section) }
{
    (p.train, p.section)
}
