//! What a person is shown of a judgement: the reply of the validator, word for word, and after it what there is to
//! look at in the files; or a SARIF log or a page of HTML; or a line of JSON, or a row of a page, for each task of a list.
//! The reply is that of `witval::run_keeping`, over any shelf.
#![tactic(auto)]

mod handing;
mod listed;
mod replying;
mod searching;
mod showing;

pub use handing::{Handed, hand_out};
pub use listed::{Judging, Progress, Stop, judge_lines};
pub use replying::{Replied, replied_to, usage_reply};
pub use showing::{Output, shown};
