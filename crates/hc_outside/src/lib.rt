//! Files and sinks, with the bytes that they tell and a count of faults.
//!
//! [`Files`] and [`Sink`] are the two traits. [`MemoryFiles`], [`MemorySink`] and [`NeverFailingSink`] are over memory, and tell all of
//! their bytes. [`RealFiles`] and [`StdSink`] are the adapters over the files of a system and over a writer of std.
#![tactic(auto)]

mod calls;
mod files;
mod made;
mod memory_files;
mod memory_sink;
mod named_files;
mod never_failing;
mod real_files;
mod sinks;
mod std_sink;
mod texts;
mod unread;

pub use calls::CallList;
pub use files::Files;
pub use made::text;
pub use memory_files::MemoryFiles;
pub use memory_sink::MemorySink;
pub use named_files::NamedFiles;
pub use never_failing::NeverFailingSink;
pub use real_files::RealFiles;
pub use sinks::Sink;
pub use std_sink::StdSink;
pub use texts::Text;

/// Why a call to the outside failed.
#[derive(Clone, Copy, Debug, PartialEq, Eq)]
pub enum Fault {
    /// The outside failed. It comes only where the count of faults of the object called rose in the call.
    Failed,
    /// Memory ran out. The object called is as before, but a sink may have got a front of the bytes.
    NoMemory,
}

/// The number of a file that a `begin` of [`Files`] gave. Only the object that gave it may be asked for it.
#[derive(Clone, Copy, Debug, PartialEq, Eq)]
pub struct FileId(pub u32);
