// What is printed: the listing, or the two lines of a refusal.
ghost use Rattle.reply.specs.Printed.{Shows, shown, Prints};

use crate::rooms::list_reply;
use commands::Form;
use decimals::digit_count;
use lent::put;
use refusals::Refusal;
use value_text::write_number;

// `refused=`, `detail=` and two line ends.
const WORDS: usize = 17;

// The two lines of a refusal at the front, where there is room for them; answers how many bytes.
pub fn put_refusal(why: Refusal, out: &mut [u8]) -> usize
    ensures { Shows (shown (Err why) out.old) result out.new }
{
    let number = why.number();
    let detail = why.detail() as u64;
    let need = WORDS + digit_count(number) + digit_count(detail);
    if out.len() < need {
        return 0;
    }
    let one = put(b"refused=", out, 0);
    let two = write_number(number, out, one);
    let three = put(b"\ndetail=", out, two);
    let four = write_number(detail, out, three);
    put(b"\n", out, four)
}

// The bytes to print stand at the front of the buffer; answers how many they are.
pub fn print_reply(form: Form, tables: &[u8], reply: &[u8], out: &mut [u8]) -> usize
    ensures { Prints form tables.now reply.now out.old result out.new }
{
    let answer = list_reply(form, tables, reply, out);
    match answer {
        Ok(count) => count,
        Err(why) => put_refusal(why, out),
    }
}
