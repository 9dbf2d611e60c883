ghost use Rattle.std.specs.Prelude.{◌≡◌};
ghost use Rattle.draft_tests.specs.Pairs.{both, both_shown};
ghost use Rattle.letter.specs.Changes.{encoded};
ghost use Rattle.letter.specs.declared.change.Change.TheVariants.{Put};
ghost use Rattle.planner.specs.Drafts.{drafted};
ghost use Rattle.planner.specs.Sources.{acted, source_of};
ghost use Rattle.planner.specs.Writing.{posts};

use letter::LetterRefusal;
use planner::{Draft, Planner, PlannerRefusal};

// Posts the draft, and tears it up where that is refused.
pub fn post_or_tear(planner: &mut Planner, draft: Draft) -> Result<u64, PlannerRefusal>
    ensures { acted planner.new result ≡
        posts (encoded (Put draft.path)) (source_of planner.old) }
{
    planner.post(draft).map_err(|(why, back)| {
        back.tear();
        why
    })
}

// Drafts of a train's paths through two sections, the second entered as the first is left: both or none.
pub fn draft_two(
    train: u32,
    first: u32,
    second: u32,
    enter: u32,
    change: u32,
    leave: u32,
) -> Result<(Draft, Draft), LetterRefusal>
    ensures { both_shown result ≡ both (drafted train first enter change) (drafted train second change leave) }
{
    let ahead = Draft::new(train, first, enter, change)?;
    match Draft::new(train, second, change, leave) {
        Ok(behind) => Ok((ahead, behind)),
        Err(why) => {
            ahead.tear();
            Err(why)
        }
    }
}
