//! Paths of events, patterns that match them, and the match itself.
#![tactic(auto)]

mod bytes;
mod fault;
mod inner_path;
mod laws;
mod literal_pattern;
mod literal_text;
mod marks;
mod names;
mod part_match;
mod path;
mod path_match;
mod path_reader;
mod pattern;
mod pattern_reader;

pub use fault::PathFault;
pub use inner_path::{InnerKind, inner};
pub use laws::{one_kept_path_law, one_path_law, one_pattern_law};
pub use literal_pattern::{any_of, literal};
pub use names::Names;
pub use path::Path;
pub use path_match::matches;
pub use path_reader::parse_path;
pub use pattern::{Part, Parts, Pattern, Segment};
pub use pattern_reader::parse_pattern;
