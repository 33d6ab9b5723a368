//! The outside of the enrolment service: what its programs read, write and keep, as traits whose contracts count the
//! faults of the object behind them, with objects in memory and thin adapters over the real ones. The small values of
//! cmp_values are named here too.
#![tactic(auto)]

mod again;
mod clock;
mod counted;
mod disk;
mod entropy;
mod faults;
mod file_disk;
mod file_entropy;
mod file_orders;
mod file_source;
mod gate;
mod host;
mod list_clock;
mod list_entropy;
mod list_orders;
mod list_up;
mod mem_disk;
mod mem_sink;
mod mem_source;
mod note;
mod order;
mod orders;
mod schedule;
mod sink;
mod source;
mod std_stream;
mod sys_clock;
#[cfg(test)]
mod tests;
mod whole;

pub use clock::Clock;
pub use cmp_values::{FailInfo, Octets, Short, Text};
pub use disk::Disk;
pub use entropy::Entropy;
pub use faults::Failed;
pub use file_disk::{FileDisk, Opening};
pub use file_entropy::FileEntropy;
pub use file_orders::FileOrders;
pub use file_source::FileSource;
pub use gate::{Gate, OpenGate, Point};
pub use host::{hold_streams, is_one_file, others_may_read};
pub use list_clock::ListClock;
pub use list_entropy::ListEntropy;
pub use list_orders::ListOrders;
pub use list_up::ListUp;
pub use mem_disk::MemDisk;
pub use mem_sink::MemSink;
pub use mem_source::MemSource;
pub use note::{Answered, Answerer, Note, Outcome};
pub use order::{Order, order_of_line};
pub use orders::Orders;
pub use sink::Sink;
pub use source::Source;
pub use std_stream::{ReadSource, StdSink, StdSource, WriteSink};
pub use sys_clock::SysClock;
pub use whole::{ReadError, read_up_to, write_all};
