// Lines without parts.
ghost use Rattle.refusals.specs.declared.Refusal.{Refusal};
ghost use Rattle.lent.specs.Left.{writing, Leaves};
ghost use Rattle.script.specs.Line.{check_sat, get_model, reset, exit};

use crate::pieces::write_all;
use refusals::Refusal;

pub fn check_sat(out: &mut [u8]) -> Result<usize, Refusal>
    ensures { Leaves (writing Refusal.OutRoom check_sat out.old) result out.new }
{
    write_all(&[b"(check-sat)\n"], out)
}

pub fn get_model(out: &mut [u8]) -> Result<usize, Refusal>
    ensures { Leaves (writing Refusal.OutRoom get_model out.old) result out.new }
{
    write_all(&[b"(get-model)\n"], out)
}

pub fn reset(out: &mut [u8]) -> Result<usize, Refusal>
    ensures { Leaves (writing Refusal.OutRoom reset out.old) result out.new }
{
    write_all(&[b"(reset)\n"], out)
}

pub fn exit(out: &mut [u8]) -> Result<usize, Refusal>
    ensures { Leaves (writing Refusal.OutRoom exit out.old) result out.new }
{
    write_all(&[b"(exit)\n"], out)
}
