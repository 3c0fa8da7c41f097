//! Lists of calls as text, and the lines of their answers.
#![tactic(auto)]

mod answers;
mod cursor;
mod form;
mod line;
mod lists;
mod numbers;
mod report;
mod scope;

pub use answers::{answer_text, any_no_answer, any_unanswered};
pub use lists::{CallsRefusal, read_calls};
pub use report::{eval_text, report_text, settled_text};
