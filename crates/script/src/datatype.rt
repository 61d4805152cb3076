// The line that declares a datatype.
ghost use Rattle.std.specs.Prelude.{◌≡◌, true, cond, ◌&&◌, [], ◌∷◌, ◌+◌, ◌*◌, ◌≤◌, eqb, length};
ghost use Rattle.refusals.specs.Limit.{input_limit};
ghost use Rattle.ground.specs.Bytes.{bytes};
ghost use Rattle.ground.specs.Lists.{joined};
ghost use Rattle.lent.specs.Left.{Leaves};
ghost use Rattle.lent.specs.Put.{Offers};
ghost use Rattle.parts.specs.Parts.{parts, ends_right};
ghost use Rattle.script.specs.Line.{constructor_list, parametric, datatype_line, declare_datatype};
ghost use Rattle.script.specs.Script.{scripted};

use crate::pieces::{any_exceeds, put_all};
use lent::put;
use parts::{check_ends, joined_length, put_joined};
use refusals::Refusal;

// How long the line is, by its name and the joined parameters and constructors: only parameters with a text bring `par`.
fn datatype_length(name: usize, parameters: usize, constructors: usize) -> usize
    requires { (name ≤ input_limit) × (parameters ≤ 2 * input_limit) × (constructors ≤ 4 * input_limit) }
    ensures { result ≡ cond (eqb parameters 0) (name + constructors + 26) (name + parameters + constructors + 35) }
{
    if parameters == 0 {
        name + constructors + 26
    } else {
        name + parameters + constructors + 35
    }
}

fn put_bare(name: &[u8], constructors: &[u8], ends: &[u64], out: &mut [u8]) -> usize
    requires { ends_right constructors.now ends.now ≡ true }
    ensures { Offers out.old out.new 0 (datatype_line name.now (constructor_list (parts constructors.now ends.now))) result }
{
    let at = put_all(&[b"(declare-datatype ", name, b" (\n  "], out, 0);
    let at = put_joined(b"\n  ", constructors, ends, out, at);
    put(b"))\n", out, at)
}

// The stops are the ends of the parameters.
fn put_parametric(
    name: &[u8],
    parameters: &[u8],
    stops: &[u64],
    constructors: &[u8],
    ends: &[u64],
    out: &mut [u8],
) -> usize
    requires { (ends_right parameters.now stops.now ≡ true) × (ends_right constructors.now ends.now ≡ true) }
    ensures { Offers out.old out.new 0 (datatype_line name.now (parametric (parts parameters.now stops.now) (constructor_list (parts constructors.now ends.now)))) result }
{
    let at = put_all(&[b"(declare-datatype ", name, b" (par ("], out, 0);
    let at = put_joined(b" ", parameters, stops, out, at);
    let at = put(b") (\n  ", out, at);
    let at = put_joined(b"\n  ", constructors, ends, out, at);
    put(b")))\n", out, at)
}

fn put_datatype(
    name: &[u8],
    parameters: &[u8],
    stops: &[u64],
    constructors: &[u8],
    ends: &[u64],
    out: &mut [u8],
    inner: usize,
) -> usize
    requires { (ends_right parameters.now stops.now ≡ true) × (ends_right constructors.now ends.now ≡ true) × (inner ≡ length (joined (bytes " ") (parts parameters.now stops.now))) }
    ensures { Offers out.old out.new 0 (declare_datatype name.now (parts parameters.now stops.now) (parts constructors.now ends.now)) result }
{
    if inner == 0 {
        put_bare(name, constructors, ends, out)
    } else {
        put_parametric(name, parameters, stops, constructors, ends, out)
    }
}

pub fn declare_datatype(
    name: &[u8],
    parameters: &[u8],
    stops: &[u64],
    constructors: &[u8],
    ends: &[u64],
    out: &mut [u8],
) -> Result<usize, Refusal>
    ensures { Leaves (scripted (name.now ∷ parameters.now ∷ stops.now ∷ constructors.now ∷ ends.now ∷ []) (ends_right parameters.now stops.now && ends_right constructors.now ends.now) (declare_datatype name.now (parts parameters.now stops.now) (parts constructors.now ends.now)) out.old) result out.new }
{
    if any_exceeds(&[
        name.len(),
        parameters.len(),
        stops.len(),
        constructors.len(),
        ends.len(),
    ]) {
        return Err(Refusal::InputTooLong);
    }
    let Some(parameters_end) = check_ends(parameters.len(), stops) else {
        return Err(Refusal::BadTable);
    };
    let Some(constructors_end) = check_ends(constructors.len(), ends) else {
        return Err(Refusal::BadTable);
    };
    let inner = joined_length(parameters_end, stops.len(), 1);
    let rows = joined_length(constructors_end, ends.len(), 3);
    let need = datatype_length(name.len(), inner, rows);
    if out.len() < need {
        return Err(Refusal::OutRoom(need));
    }
    put_datatype(name, parameters, stops, constructors, ends, out, inner);
    Ok(need)
}
