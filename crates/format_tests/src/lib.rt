//! Tests of what is read and written: bytes, records, frames, requests and replies.
#![tactic(auto)]

#[cfg(test)]
mod batch_tests;
#[cfg(test)]
mod byte_tests;
#[cfg(test)]
mod frame_tests;
#[cfg(test)]
mod record_tests;
#[cfg(test)]
mod reply_tests;
#[cfg(test)]
mod request_tests;
