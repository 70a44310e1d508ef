// Replies in numbers.
ghost use Rattle.std.specs.Prelude.{◌≡◌};
ghost use Rattle.job.specs.Numbers.{counted_in};
ghost use Rattle.job.specs.declared.numbers.Counted.{Counted};

// The number of refusal, 0 for none, and the count that is returned besides: the document's numbers, as C gets them.
#[derive(Clone, Copy)]
pub struct Counted {
    pub number: u8,
    pub count: u64,
}

// A refusal that has a number, and may come with a count.
pub trait HasNumber {
    ghost counted: { Self → Counted };

    fn counted(self) -> Counted
        ensures { result ≡ counted self };
}

// A reply in numbers: 0 with what it answers, or its refusal.
pub fn numbered<E: HasNumber>(reply: Result<u64, E>) -> Counted
    ensures { result ≡ counted_in E.counted reply }
{
    match reply {
        Ok(count) => Counted { number: 0, count },
        Err(why) => why.counted(),
    }
}
