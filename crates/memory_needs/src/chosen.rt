//! The first of what is shown.

ghost use Rattle.std.specs.Prelude.{◌≡◌};
ghost use Rattle.memory_needs.specs.Causes.{order_of};
ghost use Rattle.memory_needs.specs.Chosen.{first_of, is_before};

use crate::answers::NoBound;
use crate::shown::Shown;

/// The place of a cause among all.
#[tactic(auto, unfolding(crate::specs::Causes::order_of))]
fn order_of(cause: NoBound) -> u8
    ensures { result ≡ order_of cause }
{
    match cause {
        NoBound::Recursion => 0,
        NoBound::NotLiteral => 1,
        NoBound::OuterArea => 2,
        NoBound::NewInLoop => 3,
        NoBound::TooSmall => 4,
    }
}

/// Whether one comes before another one: by the order of the causes, then by place.
#[tactic(auto, unfolding(crate::specs::Chosen::key_of, crate::specs::Chosen::lexical))]
fn is_before(a: &Shown, b: &Shown) -> bool
    ensures { result ≡ is_before a.now b.now }
{
    let first = order_of(a.cause);
    let second = order_of(b.cause);
    if first != second {
        return first < second;
    }
    if a.at.file != b.at.file {
        return a.at.file < b.at.file;
    }
    if a.at.line != b.at.line {
        return a.at.line < b.at.line;
    }
    a.at.col < b.at.col
}

/// The first of both.
#[tactic(auto, unfolding(crate::specs::Chosen::first_of))]
pub fn first_of(best: Option<Shown>, shown: Option<Shown>) -> Option<Shown>
    ensures { result ≡ first_of best shown }
{
    match shown {
        None => best,
        Some(shown) => match best {
            None => Some(shown),
            Some(best) => {
                if is_before(&shown, &best) {
                    return Some(shown);
                }
                Some(best)
            }
        },
    }
}
