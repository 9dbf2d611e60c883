// Looking at bytes.
ghost use Rattle.std.specs.Prelude.{◌≡◌, ◌≤◌, ◌++◌, length};
ghost use Rattle.std.specs.Option.{option_map};
ghost use Rattle.std.specs.Str.{bytes_eq};
ghost use Rattle.pieces.specs.Cuts.{before};
ghost use Rattle.pieces.specs.Strips.{strip_of};

// How many bytes come before the first `b`, or all.
pub(crate) fn find(bytes: &[u8], b: u8) -> usize
    ensures value { result ≡ before b bytes.now }
    ensures bound { result ≤ length bytes.now }
{
    bytes.iter().position(|x| *x == b).unwrap_or(bytes.len())
}

// What comes behind the beginning, if that stands first.
#[tactic(auto, unfolding(crate::specs::Strips::strip_of))]
pub(crate) fn strip<'a>(part: &'a [u8], beginning: &[u8]) -> Option<&'a [u8]>
    ensures { option_map (λ x. x.now) result ≡ strip_of beginning.now part.now }
{
    let (front, rest) = part.split_at_checked(beginning.len())?;
    // Compared as slices are: the library's `strip_prefix` goes byte by byte.
    (front == beginning).then_some(rest)
}

// Whether the part is these three, one after another.
pub(crate) fn encloses(part: &[u8], before: &[u8], name: &[u8], behind: &[u8]) -> bool
    ensures { result ≡ bytes_eq part.now
        (before.now ++ (name.now ++ behind.now)) }
{
    let Some(inner) = strip(part, before) else {
        return false;
    };
    let Some(end) = strip(inner, name) else {
        return false;
    };
    end == behind
}
