//! Reading the lines of a script exactly: a value is found where the bytes spell one that is valid, and nothing is
//! found where no valid value has these bytes as its text.
#![tactic(auto)]

mod calls;
mod head;
mod header;
mod kinds;
mod laws;
mod limits;
mod lines;
mod nodes;
mod numbers;
mod reader;
mod spaces;
mod spelling;
mod texts;
mod verbs;

pub use calls::read_call;
pub use header::read_header;
pub use laws::{headers_have_no_end, lines_have_no_end};
pub use lines::read_line;
pub use reader::{MAX_LINE, Parsed, Script, line_end};
pub use spelling::print;
