//! Frames of the remoting protocol: a stream is cut into them, and their headers are read and written.
#![tactic(auto)]

mod binary_reader;
mod binary_writer;
mod cutter;
mod escapes;
mod fault;
mod fields;
mod frame;
mod front;
mod front_reader;
mod front_writer;
mod header;
mod json_bytes;
mod json_reader;
mod json_writer;
mod numbers;
mod plain_numbers;
mod plain_reader;
mod scanner;
mod spellings;
mod streams;

pub use cutter::Cutter;
pub use fault::{FrameFault, HeaderFault};
pub use fields::Fields;
pub use frame::{Form, Frame};
pub use header::Header;
pub use spellings::{
    binary_headers_are_spelled, faults_are_shown, frames_are_spelled, last_values_count,
    written_frames_are_read,
};
pub use streams::{
    each_stream_is_cut, faults_stay, frames_stay, one_reading, pieces_do_not_matter,
};
