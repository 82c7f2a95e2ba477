//! The trace of a run: its script, read line by line, the noise that a line lacks, and what is written of
//! outcomes. Each command of the program stands on it.
#![tactic(auto)]

mod capture_reader;
mod laws;
mod line_reader;
mod part_reader;
mod passing_on;
mod playing;
mod read_buffer;
mod script_line;
mod script_reader;
mod status;
mod supplying;
mod telling;

pub use capture_reader::CaptureReader;
pub use laws::the_capture_holds;
pub use passing_on::{pass_on, passed_on, write_at_once};
pub use playing::{Play, play_lines, run_script};
pub use script_line::ScriptLine;
pub use script_reader::ScriptReader;
pub use status::Status;
pub use supplying::supply;
pub use telling::{tell, tell_at_once};
