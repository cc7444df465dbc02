//! The top call: words, inputs and a sink in, a status out.
#![tactic(auto)]

mod bench;
mod check;
mod compiled;
mod fault;
mod file_fault;
mod files;
mod forecast;
mod headline;
mod image;
mod line;
mod list;
mod loaded;
mod object;
mod one;
mod places;
mod plan;
mod planned;
mod profile;
mod reading;
mod ready;
mod refusal;
mod replay;
mod reply;
mod resume;
mod run;
mod runobject;
mod selected;
mod source;
mod status;
mod stop;
mod tables;
mod top;
mod uplink;
mod versions;

pub use headline::{replays_show_runs, resumes_show_runs};
pub use one::{images_are_accepted, lives_are_one, one_answer, rests_are_one};
pub use status::Status;
pub use top::catnap;
