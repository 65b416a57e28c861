// The number of a reply.
ghost use Rattle.std.specs.Prelude.{◌≡◌};
ghost use Rattle.exchange_c.specs.Replies.{reply_number, Small};

use checks::Refusal;

// Refusal k is this and k; a count is below it.
const REFUSED: u32 = 65536;

pub(crate) fn reply_number(reply: Result<usize, Refusal>) -> u32
    requires { Small reply }
    ensures { result ≡ reply_number reply }
{
    match reply {
        Err(why) => REFUSED + u32::from(u8::from(why)),
        // `as`: a small count fits, which the contract asks for
        Ok(count) => count as u32,
    }
}
