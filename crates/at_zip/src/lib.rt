//! The zone table of a router in the Zone Information Protocol (ZIP), and its pages as ATP carries them. The crate
//! reads and writes requests for a page, makes the page of a table, and reads one, or all of them in turn.
#![tactic(auto)]

mod fault;
pub mod laws;
mod names;
mod page_view;
mod paging;
mod reader;
mod request;
mod tables;
mod zones;

pub use fault::ZipFault;
pub use page_view::{PageView, read_page};
pub use paging::{MAX_PAGE_DATA, PageBytes, page};
pub use reader::ZoneReader;
pub use request::{TableChoice, read_request, request_user};
pub use tables::Tables;
pub use zones::{MAX_ZONES, Zones, is_name, table_fault};
