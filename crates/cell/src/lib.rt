// The cell rules, on u32 modulo 2^32.

#![tactic(auto)]

ghost use Rattle.std.specs.Prelude.{◌≡◌, ◌*◌, ◌%◌, ◌<◌, slice_index};
ghost use Rattle.cell.specs.Cells.{ruled};

use job::record::Stream;

// The product of two numbers, modulo 2^32. (A helper over one method: document 01 names it.)
fn wrapped_product(a: u32, b: u32) -> u32
    ensures { result ≡ a * b % 4294967296 }
{
    a.wrapping_mul(b)
}

// The value that a rule gives, from the stream's own incoming value and those of its sources. (The rule is a number: a record may hold a 3, so that refusal 7 can be the reply.)
fn rule_value(rule: u8, own: u32, a: u32, b: u32) -> u32
    ensures { result ≡ ruled rule own a b }
{
    match rule {
        0 => own,
        1 => own.wrapping_add(wrapped_product(a, b)),
        _ => own.min(a.wrapping_add(b)),
    }
}

// The new value of stream s, whose description is t, from the incoming values of all streams.
pub fn new_value(t: Stream, s: usize, got: [u32; 4]) -> u32
    requires { (s < 4) × (t.a < 4) × (t.b < 4) }
    ensures { result ≡ ruled t.rule (slice_index got s) (slice_index got t.a) (slice_index got t.b) }
{
    let a = usize::from(t.a);
    let b = usize::from(t.b);
    rule_value(t.rule, got[s], got[a], got[b])
}
