// The command `serve`: clients are served over links until the input says stop.

mod accepting;
mod ends;
mod joining;
mod link_job;
mod reader_job;
mod troubles;
mod whole;

pub use whole::serve;
