//! Pictures of timelines: what each packet did when, as SVG.
//!
//! Each packet has a row, queue by queue. Events lie ten units apart, by their number in the timeline, which is no
//! measure of time.
#![tactic(auto)]

mod drawing;
mod fault;
pub mod laws;
mod rows;
mod shape;
mod spots;
mod writing;

pub use drawing::chart;
pub use fault::ChartFault;
