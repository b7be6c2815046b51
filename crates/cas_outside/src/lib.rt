//! The outside of the store: a source of bytes and a sink for them, a folder of files, and a gate round the calls;
//! each as a trait whose contract tells what it holds and counts its faults, with one in memory and one of the system.
#![tactic(auto)]

mod file_table;
mod folder;
mod folder_record;
mod gate;
mod mem_folder;
mod mem_sink;
mod mem_source;
mod file_names;
mod no_folder;
mod os_draft;
mod os_files;
mod os_folder;
mod plan;
mod sink;
mod source;

pub use folder::{Folder, FolderError};
pub use gate::{Gate, NoGate};
pub use mem_folder::MemFolder;
pub use mem_sink::MemSink;
pub use mem_source::MemSource;
pub use file_names::{Bytes, Name};
pub use no_folder::NoFolder;
pub use os_folder::OsFolder;
pub use sink::{Sink, WriteSink};
pub use source::{ReadSource, Source};
use thiserror::Error;

/// A call failed, and its object's count of faults rose.
#[derive(Clone, Copy, Debug, PartialEq, Eq, Drop, Error)]
#[error("the call failed")]
pub struct Failed;
