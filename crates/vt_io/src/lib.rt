//! What the program reads from and writes to: sources and sinks that count their faults.
#![tactic(auto)]

mod quiet;
mod reader;
mod script;
mod traits;
mod writer;

pub use quiet::QuietSource;
pub use reader::ReaderSource;
pub use script::{ScriptSink, ScriptSource};
pub use traits::{Failed, Sink, Source};
pub use writer::WriterSink;
