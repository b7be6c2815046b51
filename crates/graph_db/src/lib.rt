//! Objects over any port: they are stored, loaded and looked for in the primary that the port leads to.
#![tactic(auto)]

mod error;
mod loading;
mod seeking;
mod storing;

pub use error::StoreError;
pub use loading::{load, record_digest};
pub use seeking::holds;
pub use storing::{store, store_with_digest};
