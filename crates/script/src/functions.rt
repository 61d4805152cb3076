// Lines that declare or define a function.
ghost use Rattle.std.specs.Prelude.{◌≡◌, true, [], ◌∷◌};
ghost use Rattle.lent.specs.Left.{Leaves};
ghost use Rattle.lent.specs.Put.{Offers};
ghost use Rattle.parts.specs.Parts.{parts, ends_right, pairs_right};
ghost use Rattle.script.specs.Line.{define_fun, declare_fun};
ghost use Rattle.script.specs.Script.{scripted};

use crate::pieces::{any_exceeds, put_all};
use parts::{check_ends, check_pairs, joined_length, pairs_length, put_joined, put_pairs};
use refusals::Refusal;

fn put_define_fun(
    name: &[u8],
    string: &[u8],
    ends: &[u64],
    sort: &[u8],
    body: &[u8],
    out: &mut [u8],
) -> usize
    requires { ends_right string.now ends.now ≡ true }
    ensures { Offers out.old out.new 0 (define_fun name.now (parts string.now ends.now) sort.now body.now) result }
{
    let at = put_all(&[b"(define-fun ", name, b" ("], out, 0);
    let at = put_pairs(string, ends, out, at);
    put_all(&[b") ", sort, b" ", body, b")\n"], out, at)
}

// The arguments are pairs of a name and a sort, two ends each.
pub fn define_fun(
    name: &[u8],
    string: &[u8],
    ends: &[u64],
    sort: &[u8],
    body: &[u8],
    out: &mut [u8],
) -> Result<usize, Refusal>
    ensures { Leaves (scripted (name.now ∷ string.now ∷ ends.now ∷ sort.now ∷ body.now ∷ []) (pairs_right string.now ends.now) (define_fun name.now (parts string.now ends.now) sort.now body.now) out.old) result out.new }
{
    if any_exceeds(&[name.len(), string.len(), ends.len(), sort.len(), body.len()]) {
        return Err(Refusal::InputTooLong);
    }
    let Some(last) = check_pairs(string.len(), ends) else {
        return Err(Refusal::BadTable);
    };
    let arguments = pairs_length(last, ends.len() / 2);
    let need = name.len() + arguments + sort.len() + body.len() + 19;
    if out.len() < need {
        return Err(Refusal::OutRoom(need));
    }
    put_define_fun(name, string, ends, sort, body, out);
    Ok(need)
}

fn put_declare_fun(name: &[u8], string: &[u8], ends: &[u64], sort: &[u8], out: &mut [u8]) -> usize
    requires { ends_right string.now ends.now ≡ true }
    ensures { Offers out.old out.new 0 (declare_fun name.now (parts string.now ends.now) sort.now) result }
{
    let at = put_all(&[b"(declare-fun ", name, b" ("], out, 0);
    let at = put_joined(b" ", string, ends, out, at);
    put_all(&[b") ", sort, b")\n"], out, at)
}

pub fn declare_fun(
    name: &[u8],
    string: &[u8],
    ends: &[u64],
    sort: &[u8],
    out: &mut [u8],
) -> Result<usize, Refusal>
    ensures { Leaves (scripted (name.now ∷ string.now ∷ ends.now ∷ sort.now ∷ []) (ends_right string.now ends.now) (declare_fun name.now (parts string.now ends.now) sort.now) out.old) result out.new }
{
    if any_exceeds(&[name.len(), string.len(), ends.len(), sort.len()]) {
        return Err(Refusal::InputTooLong);
    }
    let Some(last) = check_ends(string.len(), ends) else {
        return Err(Refusal::BadTable);
    };
    let arguments = joined_length(last, ends.len(), 1);
    let need = name.len() + arguments + sort.len() + 19;
    if out.len() < need {
        return Err(Refusal::OutRoom(need));
    }
    put_declare_fun(name, string, ends, sort, out);
    Ok(need)
}
