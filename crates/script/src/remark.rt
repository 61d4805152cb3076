// A comment, which stays on its line.
ghost use Rattle.std.specs.Prelude.{true, [], ◌∷◌};
ghost use Rattle.lent.specs.Left.{Leaves};
ghost use Rattle.script.specs.Line.{comment};
ghost use Rattle.script.specs.Script.{scripted};

use lent::put;
use parts::{exceeds, put_spaced};
use refusals::Refusal;

pub fn comment(text: &[u8], out: &mut [u8]) -> Result<usize, Refusal>
    ensures { Leaves (scripted (text.now ∷ []) true (comment text.now) out.old) result out.new }
{
    if exceeds(text.len(), false) {
        return Err(Refusal::InputTooLong);
    }
    let need = text.len() + 3;
    if out.len() < need {
        return Err(Refusal::OutRoom(need));
    }
    let first = put(b"; ", out, 0);
    let second = put_spaced(text, out, first);
    put(b"\n", out, second);
    Ok(need)
}
