//! The reading of HTTP/1 messages, phase by phase.
//!
//! A head is read and checked, how its body is delimited is found, and the body is read. The phases
//! stand in `specs/` as relations between the bytes that a reader has and what reading them gives,
//! joined so that the first phase that fails is the answer. Each function answers by one, however
//! the reader cuts its bytes into reads, and reads no further than the end of its part. A fault of
//! the bytes comes exactly where the definition has it; memory, the reader and the limit of reads
//! may stand in the way before.
//!
//! `httparse` finds the parts of a head and the size of a chunk; its grammar says what they are.
//! The lines of a head share the head's bytes.
#![tactic(auto)]

mod ask;
mod body;
mod byte;
mod checked_head;
mod chunk_size;
mod chunks;
mod cutting;
mod ending;
mod fault;
mod final_head;
mod framing;
mod head_bytes;
mod head_cut;
mod head_lines;
mod head_parts;
mod laws;
mod line_len;
mod plain_body;
mod progress;
mod request_head;
mod response_head;
mod size_line;
mod trailers;

pub use ask::say_continue;
pub use body::read_body;
pub use byte::{read_crlf, read_some};
pub use checked_head::read_checked_head;
pub use chunk_size::read_size;
pub use fault::{Fault, MessageFault};
pub use final_head::read_final_head;
pub use framing::{Framing, frame_response};
pub use laws::{chunks_have_one_reading, heads_have_one_reading};
pub use request_head::RequestHead;
pub use response_head::ResponseHead;
pub use trailers::read_trailers;
