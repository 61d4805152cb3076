// The reader and the check of 27, exported.
ghost use Rattle.std.specs.Prelude.{[], ◌∷◌};
ghost use Rattle.reader.specs.Read.{reading};
ghost use Rattle.stazzumpi.specs.Exports.{Exports, exported};
ghost use Rattle.stazzumpi.specs.Outs.{reads, ChecksOut};

use refusals::Refusal;
use told::{code, tell_checked, tell_reading};

// Tells how many nodes, text bytes and open brackets the tree took.
#[unsafe(no_mangle)]
pub extern "C" fn stazzumpi_parse_sexpr(
    input: &[u8],
    nodes: &mut [u64],
    text: &mut [u8],
    stack: &mut [u64],
    told: &mut [u64],
) -> u64
    ensures { Exports told.old (exported 3 told.old (nodes.old ∷ text.old ∷ stack.old ∷ []) (reads (reading nodes.old text.old stack.old input.now))) result told.new (nodes.new ∷ text.new ∷ stack.new ∷ []) }
{
    if told.len() < 3 {
        return code(Refusal::OutRoom(3));
    }
    let answer = reader::parse_sexpr(input, nodes, text, stack);
    tell_reading(answer, told)
}

// Tells how many nodes and text bytes the tree takes.
#[unsafe(no_mangle)]
pub extern "C" fn stazzumpi_check_arena(words: &[u64], text: &[u8], told: &mut [u64]) -> u64
    ensures { ChecksOut words.now text.now told.old result told.new }
{
    if told.len() < 2 {
        return code(Refusal::OutRoom(2));
    }
    let answer = arena_check::check_arena(words, text);
    tell_checked(answer, told)
}
