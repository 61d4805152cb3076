// What programs `modellist` and `valuelist` do: tables.txt and a reply on standard input, in; the listing, or the refusal's two lines, out.
#![tactic(auto)]

mod list;

pub use list::run;
