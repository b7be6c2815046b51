// Why a piece was not timed.
use cas_script::ScriptError;
use fault_in::FaultInError;
use graph_db::StoreError;
use image_file::ImageError;
use region_core::BuildError;
use std::alloc::{AllocError, AllocFailed};
use std::io;

/// Why a piece was not timed.
#[derive(Debug, Drop)]
pub enum BenchError {
    /// The words are not a piece and a number of objects.
    Words,
    /// The clock, the words or an output failed.
    Io(io::Error),
    /// There is no memory.
    Memory,
    /// The objects do not fit into the largest region.
    Full,
    /// An object that another refers to was not stored.
    Absent,
    /// The lines are too many for a script.
    Script,
    /// The bytes are no image.
    Image,
}

impl From<io::Error> for BenchError {
    fn from(error: io::Error) -> BenchError {
        BenchError::Io(error)
    }
}

impl From<AllocError> for BenchError {
    fn from(_error: AllocError) -> BenchError {
        BenchError::Memory
    }
}

impl<T: Drop> From<AllocFailed<T>> for BenchError {
    fn from(_error: AllocFailed<T>) -> BenchError {
        BenchError::Memory
    }
}

impl From<BuildError> for BenchError {
    fn from(error: BuildError) -> BenchError {
        match error {
            BuildError::Full(_) => BenchError::Full,
            BuildError::Memory => BenchError::Memory,
        }
    }
}

impl From<StoreError> for BenchError {
    fn from(error: StoreError) -> BenchError {
        match error {
            StoreError::Dangling { .. } => BenchError::Absent,
            StoreError::Full(_) => BenchError::Full,
            StoreError::Memory => BenchError::Memory,
        }
    }
}

impl From<FaultInError> for BenchError {
    fn from(error: FaultInError) -> BenchError {
        match error {
            FaultInError::Full(_) => BenchError::Full,
            FaultInError::Memory => BenchError::Memory,
        }
    }
}

impl From<ScriptError> for BenchError {
    fn from(error: ScriptError) -> BenchError {
        match error {
            ScriptError::Memory => BenchError::Memory,
            ScriptError::Line(_, _) | ScriptError::TooLong => BenchError::Script,
        }
    }
}

impl From<ImageError> for BenchError {
    fn from(error: ImageError) -> BenchError {
        match error {
            ImageError::Memory => BenchError::Memory,
            _ => BenchError::Image,
        }
    }
}
