// Lines of one or two parts.
ghost use Rattle.std.specs.Prelude.{true, [], ◌∷◌};
ghost use Rattle.lent.specs.Left.{Leaves};
ghost use Rattle.script.specs.Line.{set_logic, set_option, assert, declare_const};
ghost use Rattle.script.specs.Script.{scripted};

use crate::pieces::write_all;
use refusals::Refusal;

pub fn set_logic(logic: &[u8], out: &mut [u8]) -> Result<usize, Refusal>
    ensures { Leaves (scripted (logic.now ∷ []) true (set_logic logic.now) out.old) result out.new }
{
    write_all(&[b"(set-logic ", logic, b")\n"], out)
}

pub fn assert(term: &[u8], out: &mut [u8]) -> Result<usize, Refusal>
    ensures { Leaves (scripted (term.now ∷ []) true (assert term.now) out.old) result out.new }
{
    write_all(&[b"(assert ", term, b")\n"], out)
}

pub fn set_option(option: &[u8], value: &[u8], out: &mut [u8]) -> Result<usize, Refusal>
    ensures { Leaves (scripted (option.now ∷ value.now ∷ []) true (set_option option.now value.now) out.old) result out.new }
{
    write_all(&[b"(set-option :", option, b" ", value, b")\n"], out)
}

pub fn declare_const(name: &[u8], sort: &[u8], out: &mut [u8]) -> Result<usize, Refusal>
    ensures { Leaves (scripted (name.now ∷ sort.now ∷ []) true (declare_const name.now sort.now) out.old) result out.new }
{
    write_all(&[b"(declare-const ", name, b" ", sort, b")\n"], out)
}
