// A tables' text and a reply, in; the bytes that programs `modellist` and `valuelist` print, out.
#![tactic(auto)]

mod reply;
mod rooms;
mod show;

pub use reply::list_in;
pub use rooms::list_reply;
pub use show::{print_reply, put_refusal};
