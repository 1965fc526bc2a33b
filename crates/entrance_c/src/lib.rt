//! The entrance for C: the archive of the one function that other programs call.
#![tactic(auto)]

ghost use Rattle.std.specs.Prelude.{◌≡◌};
ghost use Rattle.entrance.specs.Session.{answers_in, answers_of, number_of};

/// The number of events answered; each answer stands in `answers` as `entrance::run` writes it. C has no Result: `usize::MAX`
/// stands for each error, a vector that is refused, a malformed record, and answers without room for one more. What was written
/// before stays, and nothing else of the answers changes.
#[unsafe(no_mangle)]
pub extern "C" fn xm_run(vector: &[u8], records: &[u8], answers: &mut [u8]) -> usize
    ensures count { result ≡ number_of (answers_in vector.now records.now answers.old) }
    ensures bytes { answers.new ≡ answers_of vector.now records.now answers.old }
{
    entrance::run(vector, records, answers).unwrap_or(usize::MAX)
}
