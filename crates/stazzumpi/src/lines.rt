// The lines of a script, exported: each tells the length of its line.
// Stays: one function for each name that C calls; two that differ in a name alone are two exports.
ghost use Rattle.std.specs.Prelude.{true, ◌&&◌, [], ◌∷◌};
ghost use Rattle.refusals.specs.declared.Refusal.{Refusal};
ghost use Rattle.lent.specs.Left.{writing};
ghost use Rattle.parts.specs.Parts.{parts, ends_right, pairs_right};
ghost use Rattle.script.specs.Line.{set_logic, set_option, comment, assert, define_fun, declare_const, declare_fun, declare_datatype, check_sat, get_model, reset, exit};
ghost use Rattle.script.specs.Script.{scripted};
ghost use Rattle.stazzumpi.specs.Outs.{WritesOut};

use refusals::Refusal;
use told::{code, tell_written};

#[unsafe(no_mangle)]
pub extern "C" fn stazzumpi_set_logic(logic: &[u8], out: &mut [u8], told: &mut [u64]) -> u64
    ensures { WritesOut (scripted (logic.now ∷ []) true (set_logic logic.now) out.old) told.old out.old result told.new out.new }
{
    if told.len() < 1 {
        return code(Refusal::OutRoom(1));
    }
    let answer = script::set_logic(logic, out);
    tell_written(answer, told)
}

#[unsafe(no_mangle)]
pub extern "C" fn stazzumpi_set_option(
    option: &[u8],
    value: &[u8],
    out: &mut [u8],
    told: &mut [u64],
) -> u64
    ensures { WritesOut (scripted (option.now ∷ value.now ∷ []) true (set_option option.now value.now) out.old) told.old out.old result told.new out.new }
{
    if told.len() < 1 {
        return code(Refusal::OutRoom(1));
    }
    let answer = script::set_option(option, value, out);
    tell_written(answer, told)
}

// Line feeds in the text become spaces.
#[unsafe(no_mangle)]
pub extern "C" fn stazzumpi_comment(text: &[u8], out: &mut [u8], told: &mut [u64]) -> u64
    ensures { WritesOut (scripted (text.now ∷ []) true (comment text.now) out.old) told.old out.old result told.new out.new }
{
    if told.len() < 1 {
        return code(Refusal::OutRoom(1));
    }
    let answer = script::comment(text, out);
    tell_written(answer, told)
}

#[unsafe(no_mangle)]
pub extern "C" fn stazzumpi_assert(term: &[u8], out: &mut [u8], told: &mut [u64]) -> u64
    ensures { WritesOut (scripted (term.now ∷ []) true (assert term.now) out.old) told.old out.old result told.new out.new }
{
    if told.len() < 1 {
        return code(Refusal::OutRoom(1));
    }
    let answer = script::assert(term, out);
    tell_written(answer, told)
}

// The arguments are pairs of a name and a sort, two ends each.
#[unsafe(no_mangle)]
pub extern "C" fn stazzumpi_define_fun(
    name: &[u8],
    string: &[u8],
    ends: &[u64],
    sort: &[u8],
    body: &[u8],
    out: &mut [u8],
    told: &mut [u64],
) -> u64
    ensures { WritesOut (scripted (name.now ∷ string.now ∷ ends.now ∷ sort.now ∷ body.now ∷ []) (pairs_right string.now ends.now) (define_fun name.now (parts string.now ends.now) sort.now body.now) out.old) told.old out.old result told.new out.new }
{
    if told.len() < 1 {
        return code(Refusal::OutRoom(1));
    }
    let answer = script::define_fun(name, string, ends, sort, body, out);
    tell_written(answer, told)
}

#[unsafe(no_mangle)]
pub extern "C" fn stazzumpi_declare_const(
    name: &[u8],
    sort: &[u8],
    out: &mut [u8],
    told: &mut [u64],
) -> u64
    ensures { WritesOut (scripted (name.now ∷ sort.now ∷ []) true (declare_const name.now sort.now) out.old) told.old out.old result told.new out.new }
{
    if told.len() < 1 {
        return code(Refusal::OutRoom(1));
    }
    let answer = script::declare_const(name, sort, out);
    tell_written(answer, told)
}

// The arguments are sorts.
#[unsafe(no_mangle)]
pub extern "C" fn stazzumpi_declare_fun(
    name: &[u8],
    string: &[u8],
    ends: &[u64],
    sort: &[u8],
    out: &mut [u8],
    told: &mut [u64],
) -> u64
    ensures { WritesOut (scripted (name.now ∷ string.now ∷ ends.now ∷ sort.now ∷ []) (ends_right string.now ends.now) (declare_fun name.now (parts string.now ends.now) sort.now) out.old) told.old out.old result told.new out.new }
{
    if told.len() < 1 {
        return code(Refusal::OutRoom(1));
    }
    let answer = script::declare_fun(name, string, ends, sort, out);
    tell_written(answer, told)
}

#[unsafe(no_mangle)]
pub extern "C" fn stazzumpi_declare_datatype(
    name: &[u8],
    parameters: &[u8],
    parameter_ends: &[u64],
    constructors: &[u8],
    constructor_ends: &[u64],
    out: &mut [u8],
    told: &mut [u64],
) -> u64
    ensures { WritesOut (scripted (name.now ∷ parameters.now ∷ parameter_ends.now ∷ constructors.now ∷ constructor_ends.now ∷ []) (ends_right parameters.now parameter_ends.now && ends_right constructors.now constructor_ends.now) (declare_datatype name.now (parts parameters.now parameter_ends.now) (parts constructors.now constructor_ends.now)) out.old) told.old out.old result told.new out.new }
{
    if told.len() < 1 {
        return code(Refusal::OutRoom(1));
    }
    let answer = script::declare_datatype(
        name,
        parameters,
        parameter_ends,
        constructors,
        constructor_ends,
        out,
    );
    tell_written(answer, told)
}

#[unsafe(no_mangle)]
pub extern "C" fn stazzumpi_check_sat(out: &mut [u8], told: &mut [u64]) -> u64
    ensures { WritesOut (writing Refusal.OutRoom check_sat out.old) told.old out.old result told.new out.new }
{
    if told.len() < 1 {
        return code(Refusal::OutRoom(1));
    }
    let answer = script::check_sat(out);
    tell_written(answer, told)
}

#[unsafe(no_mangle)]
pub extern "C" fn stazzumpi_get_model(out: &mut [u8], told: &mut [u64]) -> u64
    ensures { WritesOut (writing Refusal.OutRoom get_model out.old) told.old out.old result told.new out.new }
{
    if told.len() < 1 {
        return code(Refusal::OutRoom(1));
    }
    let answer = script::get_model(out);
    tell_written(answer, told)
}

#[unsafe(no_mangle)]
pub extern "C" fn stazzumpi_reset(out: &mut [u8], told: &mut [u64]) -> u64
    ensures { WritesOut (writing Refusal.OutRoom reset out.old) told.old out.old result told.new out.new }
{
    if told.len() < 1 {
        return code(Refusal::OutRoom(1));
    }
    let answer = script::reset(out);
    tell_written(answer, told)
}

#[unsafe(no_mangle)]
pub extern "C" fn stazzumpi_exit(out: &mut [u8], told: &mut [u64]) -> u64
    ensures { WritesOut (writing Refusal.OutRoom exit out.old) told.old out.old result told.new out.new }
{
    if told.len() < 1 {
        return code(Refusal::OutRoom(1));
    }
    let answer = script::exit(out);
    tell_written(answer, told)
}
