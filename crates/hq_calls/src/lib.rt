//! What tests ask of the calls that they make.
#![tactic(auto)]

use std::test::*;

/// What a call answers that is to go well. Its fault isn't told, and nothing is promised of its answer: a test is
/// proved over all that a fault may say, and over all that a contract says of an answer.
///
/// # Errors
///
/// A failure of the test that the call stands in, where the call's answer is a fault.
pub fn good<T, E: Drop>(answer: Result<T, E>) -> Result<T, Fail> {
    match answer {
        Ok(value) => Ok(value),
        Err(_) => Err("a call that is to go well".into()),
    }
}
