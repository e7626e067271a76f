//! Why nothing is planned.
use thiserror::Error;

/// Why nothing is planned for the sites.
#[derive(Debug, Drop, Error)]
pub enum TurnError {
    /// The least site that is no start.
    #[error("the site {site:08x} is no start")]
    NotListed { site: u32 },
    /// No run of so many free pages is left for the private range.
    #[error("no {pages} free pages for the private range")]
    NoPrivate { pages: u32 },
    #[error("out of memory")]
    Memory,
}
