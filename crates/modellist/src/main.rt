// Program modellist: tables.txt and a model on standard input, in; the listing, or the refusal's two lines, out.
#![tactic(auto)]

use commands::Form;

fn main(rt: HostRuntime) {
    program::run(&rt, Form::Model);
}
