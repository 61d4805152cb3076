// Pieces of a line: asked whether they are too long, and written one after the other.
ghost use Rattle.std.specs.Prelude.{◌≡◌, true, ◌≤◌, map, ltb, length};
ghost use Rattle.std.specs.List.{concat, list_any};
ghost use Rattle.refusals.specs.Limit.{input_limit};
ghost use Rattle.lent.specs.Left.{Leaves};
ghost use Rattle.lent.specs.Put.{Offers};
ghost use Rattle.script.specs.Script.{scripted};

use lent::put;
use parts::exceeds;
use refusals::Refusal;

// Whether one of the inputs that have these sizes is too long.
#[inline(always)]
pub fn any_exceeds(sizes: &[usize]) -> bool
    ensures { result ≡ list_any (λ size. ltb input_limit size) sizes.now }
{
    sizes.iter().any(|size| exceeds(*size, false))
}

// All pieces at a place, where there is room for them; answers the place after them. A hint, here and below: a caller knows how many
// pieces there are and what most of them say, and as a call of its own a short line took twice as long.
#[inline(always)]
pub fn put_all(pieces: &[&[u8]], out: &mut [u8], at: usize) -> usize
    ensures { Offers out.old out.new at (concat (map (λ piece. piece.now) pieces.now)) result }
{
    let mut to = at;
    for piece in pieces {
        to = put(*piece, out, to);
    }
    to
}

// A line that is all pieces, some of them lent.
#[inline(always)]
pub fn write_all(pieces: &[&[u8]], out: &mut [u8]) -> Result<usize, Refusal>
    requires { length pieces.now ≤ 5 }
    ensures { Leaves (scripted (map (λ piece. piece.now) pieces.now) true (concat (map (λ piece. piece.now) pieces.now)) out.old) result out.new }
{
    let mut need: usize = 0;
    for piece in pieces {
        if exceeds(piece.len(), false) {
            return Err(Refusal::InputTooLong);
        }
        need += piece.len();
    }
    if out.len() < need {
        return Err(Refusal::OutRoom(need));
    }
    put_all(pieces, out, 0);
    Ok(need)
}
