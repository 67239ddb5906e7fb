//! Where octets come from and go to: sources, sinks, whole writes, a reader of lines, and a reader of whole documents.
#![tactic(auto)]

mod adapters;
mod document;
mod endless;
mod faithful;
mod laws;
mod line_buffer;
mod line_reader;
mod memory;
mod piece;
mod read_ahead;
mod script;
mod sink;
mod source;
mod whole;

pub use adapters::{ReadSource, WriteSink};
pub use document::{DOCUMENT_LIMIT, Document, read_document};
pub use endless::EndlessSource;
pub use faithful::{FaithfulSink, FaithfulSource};
pub use laws::a_text_is_its_lines;
pub use line_reader::{LINE_LIMIT, LineRead, LineReader, TEXT_LIMIT};
pub use memory::{MemorySink, MemorySource};
pub use piece::Unread;
pub use read_ahead::AHEAD_LIMIT;
pub use sink::{ByteSink, SinkFault};
pub use source::{ByteSource, Failed};
pub use whole::write_whole;
