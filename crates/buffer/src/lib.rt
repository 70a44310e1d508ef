// Bytes, put into a lent buffer from a place on. Whatever puts bytes says it by `Put`: the next place, and the whole buffer then.

#![tactic(auto)]

ghost use Rattle.buffer.specs.Put.{Fits, Put};

// Puts all of bytes, and answers the next place.
pub fn put_bytes(out: &mut [u8], at: usize, bytes: &[u8]) -> usize
    requires { Fits out.old at bytes.now }
    ensures { Put out.old at bytes.now result out.new }
{
    let end = at + bytes.len();
    out[at..end].copy_from_slice(bytes);
    end
}
