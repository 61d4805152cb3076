// The rooms of programs `modellist` and `valuelist`: 2,048 nodes, 65,536 text bytes, depth 4,096.
ghost use Rattle.std.specs.Prelude.{◌≡◌, replicate};
ghost use Rattle.reader.specs.Program.{program_words};
ghost use Rattle.reply.specs.Printed.{Lists};

use crate::reply::list_in;
use commands::Form;
use reader::PROGRAM_WORDS;
use refusals::Refusal;

fn node_words() -> [u64; PROGRAM_WORDS]
    ensures { result ≡ replicate program_words 0 }
{
    [0; PROGRAM_WORDS]
}

fn text_bytes() -> [u8; 65536]
    ensures { result ≡ replicate 65536 0 }
{
    [0; 65536]
}

fn stack_words() -> [u64; 4096]
    ensures { result ≡ replicate 4096 0 }
{
    [0; 4096]
}

// The listing of a reply in the program's rooms.
pub fn list_reply(form: Form, tables: &[u8], reply: &[u8], out: &mut [u8]) -> Result<usize, Refusal>
    ensures { Lists form tables.now reply.now out.old result out.new }
{
    let mut nodes = node_words();
    let mut text = text_bytes();
    let mut stack = stack_words();
    list_in(form, tables, reply, &mut nodes, &mut text, &mut stack, out)
}
