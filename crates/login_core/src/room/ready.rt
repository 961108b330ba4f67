// What is made ready for the next event.

use login_model::{Answer, Verdict};

/// The verdict and the answer of the event that room was made for last.
#[derive(Drop)]
pub struct Ready {
    pub verdict: Verdict,
    pub answer: Answer,
}
