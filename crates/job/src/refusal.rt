// Why bytes or a record are no job within the limits.
ghost use Rattle.std.specs.Prelude.{◌≡◌};
ghost use Rattle.job.specs.Refusals.{number_of};

// Refusals 1 to 8, in the order in which they are asked.
#[derive(Clone, Copy, PartialEq, Eq)]
pub enum Refusal {
    // Fewer than 16 bytes.
    Short,
    // The form is not 1.
    Form,
    // n, k or m out of range; in a file, byte 5, 14 or 15 not 0; in a record, an unused place not 0.
    Counts,
    // An offset or the total not by the formulas.
    Offsets,
    // The number of bytes given is not the total.
    Length,
    // A bound of -128 (in a record, beyond 127 in size), some l > u, or over 1,024 points.
    Bounds,
    // Some stream breaks its line.
    Streams,
    // An entry of -128 in H or S (in a record, beyond 127 in size).
    Rows,
}

// The number of refusal, 1 to 8.
impl From<Refusal> for u8 {
    ghost from_gives = { λ why number. number ≡ number_of why };

    fn from(why: Refusal) -> u8 {
        match why {
            Refusal::Short => 1,
            Refusal::Form => 2,
            Refusal::Counts => 3,
            Refusal::Offsets => 4,
            Refusal::Length => 5,
            Refusal::Bounds => 6,
            Refusal::Streams => 7,
            Refusal::Rows => 8,
        }
    }
}
