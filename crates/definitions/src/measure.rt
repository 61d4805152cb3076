// What checking a definition answers, and what literals that were read come to.
ghost use Rattle.definitions.specs.Measure.{ValueOf, ArmOf};

use literals::{Literal, plus};
use refusals::Refusal;

// A literal that has to be of a row.
pub fn value_of(literal: Result<Literal, Refusal>, wanted: usize) -> Result<usize, Refusal>
    ensures { ValueOf literal wanted result }
{
    let literal = literal?;
    if literal.row != wanted {
        return Err(Refusal::UnmatchedType);
    }
    Ok(literal.need)
}

// How long an arm's two lines are beside its key and its value: `when=`, `then=` and two line ends.
const ARM: usize = 12;

// An arm whose key and value were read: both come to be refused before either's row is looked at.
pub fn arm_of(
    key: Result<Literal, Refusal>,
    value: Result<Literal, Refusal>,
    argument: usize,
    res: usize,
) -> Result<usize, Refusal>
    ensures { ArmOf key value argument res result }
{
    let key = key?;
    let value = value?;
    let fits = value.row == res;
    if key.row != argument || !fits {
        return Err(Refusal::UnmatchedType);
    }
    Ok(plus(plus(key.need, value.need), ARM))
}
