//! The commands over captures: which datagrams pass the filters, and the check, the text and the sessions of those that pass.
#![tactic(auto)]

mod address;
mod capture_check;
mod capture_show;
mod counted_source;
mod counts;
mod faults;
mod filter;
mod found;
mod frame_check;
mod frame_show;
pub mod laws;
mod located_check;
mod pair;
mod pair_lines;
mod pair_tally;
mod place;
mod session_frames;
pub mod session_laws;
mod session_text;
mod sessions;
mod several;
mod shown;
mod start;
mod targets;
mod watch;

pub use capture_check::CaptureCheck;
pub use capture_show::CaptureShow;
pub use counted_source::CountedSource;
pub use counts::CaptureCounts;
pub use filter::CaptureFilter;
pub use found::Found;
pub use sessions::Sessions;
pub use start::begins_as_capture;
pub use watch::Watch;
