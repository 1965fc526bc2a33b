// The bytes of a reply.
ghost use Rattle.std.specs.Prelude.{◌≡◌, ◌+◌, ◌≤◌, length};
ghost use Rattle.entrance.specs.Encoding.{answer_bytes, bytes_of, put};

use machine::answer::Reply;

/// How many bytes an answer has.
pub const ANSWER_BYTES: usize = 12;

/// Code, a and b, four bytes each.
fn encode(reply: Reply) -> [u8; ANSWER_BYTES]
    ensures { result ≡ bytes_of reply }
{
    let Reply { code, a, b } = reply;
    let [c0, c1, c2, c3] = code.to_le_bytes();
    let [a0, a1, a2, a3] = a.to_le_bytes();
    let [b0, b1, b2, b3] = b.to_le_bytes();
    [c0, c1, c2, c3, a0, a1, a2, a3, b0, b1, b2, b3]
}

/// Writes a reply at a place.
pub(crate) fn write_reply(reply: Reply, answers: &mut [u8], at: usize)
    requires { at + answer_bytes ≤ length answers.old }
    ensures { answers.new ≡ put at (bytes_of reply) answers.old }
{
    answers[at..at + ANSWER_BYTES].copy_from_slice(&encode(reply));
}
