//! Sessions: the texts and the timed inputs that the bytes of an input are.
#![tactic(auto)]

mod bytes;
mod directive;
mod fault;
mod given;
mod laws;
mod lines;
mod reader;
mod session;
mod text_part;
mod times;
mod words;

pub use fault::SessionFault;
pub use laws::{
    always_one, not_both, nothing_is_lost, one_bad_line, one_session, text_one_is_first,
    verdict_law,
};
pub use reader::read_session;
pub use session::Session;
pub use text_part::{TextPart, TextParts};
