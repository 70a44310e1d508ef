// The verdict in the document's numbers.
ghost use Rattle.std.specs.Prelude.{◌≡◌};
ghost use Rattle.verdict.specs.Verdicts.{in_numbers};

use crate::judge::{Extent, NO_EXTENT, Pair, Verdict};

// The number of refusal, 0 for accepted, and what is returned besides: zeros where the table lists nothing. (Numbers, since that is what C gets.)
#[derive(Clone, Copy)]
pub struct InNumbers {
    pub number: u8,
    pub stream: u8,
    pub pair: Pair,
    pub hops: i64,
    pub extent: Extent,
}

// The number and the values of a verdict. (No `From`: it would say less than the name.)
pub fn in_numbers(v: Verdict) -> InNumbers
    ensures { result ≡ in_numbers v }
{
    let none = InNumbers {
        number: 0,
        stream: 0,
        pair: Pair {
            p: space::vector::ZERO,
            q: space::vector::ZERO,
        },
        hops: 0,
        extent: NO_EXTENT,
    };
    match v {
        Verdict::Accepted(extent) => InNumbers { extent, ..none },
        Verdict::Limit(number) => InNumbers { number, ..none },
        Verdict::Precedence(stream) => InNumbers {
            number: 9,
            stream,
            ..none
        },
        Verdict::Hop(stream) => InNumbers {
            number: 10,
            stream,
            ..none
        },
        Verdict::Cell(pair) => InNumbers {
            number: 11,
            pair,
            ..none
        },
        Verdict::Link(c) => InNumbers {
            number: 12,
            stream: c.stream,
            pair: c.pair,
            hops: c.hops,
            ..none
        },
    }
}
