ghost use Rattle.std.specs.Prelude.{◌≡◌, MatchOption, MatchResult};
ghost use Rattle.answer.specs.declared.answer.Answer.TheVariants as answer;

use crate::refusal::LineRefusal;
use frame::Form;

// What a call of a line answered. It stays one enum of five kinds, and no Result over four: a record lists answers,
// and each definition that reads one, as the tally does, then matches once and not twice.
#[derive(Clone, Copy)]
pub enum Answer {
    // open, ask, close, finish: it was done
    Done,
    // send: no letter is due; hear, read: no frame came; deliver: the next letter is not accepted yet
    Nothing,
    // write, post, send, deliver: the letter's number
    Number(u64),
    // hear, read: the form of the frame that came
    Form(Form),
    // it was not done
    Refused(LineRefusal),
}

// A call that answers nothing more was done.
impl From<()> for Answer {
    ghost from_gives = { λ _ a. a ≡ answer.Done };

    fn from(_: ()) -> Answer {
        Answer::Done
    }
}

impl From<u64> for Answer {
    ghost from_gives = { λ n a. a ≡ answer.Number n };

    fn from(number: u64) -> Answer {
        Answer::Number(number)
    }
}

impl From<Form> for Answer {
    ghost from_gives = { λ f a. a ≡ answer.Form f };

    fn from(form: Form) -> Answer {
        Answer::Form(form)
    }
}

// None where nothing came.
impl<T: Into<Answer>> From<Option<T>> for Answer {
    ghost from_gives = { λ came a. MatchOption came (a ≡ answer.Nothing) (λ x. T.Into.converts x a) };

    fn from(came: Option<T>) -> Answer {
        came.map_or(Answer::Nothing, T::into)
    }
}

// What a call of a line returned, whatever it is that it returns.
impl<T: Into<Answer>> From<Result<T, LineRefusal>> for Answer {
    ghost from_gives = { λ returned a. MatchResult returned (λ x. T.Into.converts x a) (λ why. a ≡ answer.Refused why) };

    fn from(returned: Result<T, LineRefusal>) -> Answer {
        returned.map_or_else(Answer::Refused, T::into)
    }
}
