// One tick of the array of a job that may run.
ghost use Rattle.array.specs.Ticks.{Ticked};
ghost use Rattle.array.specs.Steps.{Supplied};

use frame::Frame;

// One tick: every cell takes its arrivals, each read before its place is rewritten; then the points are worked.
// The tables are lent one by one, in no struct: each step below gets those alone that it reads or writes.
pub fn one_tick(
    f: Frame,
    timetable: &[u64],
    t: u64,
    input: &[u32],
    values: &mut [u32],
    places: &mut [u32],
)
    requires { Supplied f input.now values.old places.old timetable.now }
    ensures { Ticked f.job input.now t places.old values.old places.new values.new }
{
    crate::arrive::arrive(f, t, places);
    crate::work::work(f, timetable, t, input, values, places);
}
