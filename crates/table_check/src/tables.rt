//! The tables that are compared.

use delay_view::DelayView;
use half_view::HalfView;
use key_view::KeyView;
use queue_view::QueueView;

/// Tables that are made of a log's records.
#[derive(Clone, Copy)]
pub struct Tables<'a> {
    pub queues: &'a QueueView,
    pub keys: &'a KeyView,
    pub halves: &'a HalfView,
    pub levels: &'a DelayView,
}
