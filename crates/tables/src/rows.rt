// One stream's row of a table, as a part of the table itself.
ghost use Rattle.job.specs.Limits.{Acceptable};
ghost use Rattle.tables.specs.Rows.{Row};

use job::record::Job;

// The row of stream s, or the empty part at the front. (A part and no Option: document 01 names it.)
pub fn row_of<'a>(j: Job, table: &'a [u32], s: u8) -> &'a [u32]
    ensures { Row j table.now s result.now }
{
    match job::limits::check(j) {
        Ok(()) => row_within(j, table, s),
        Err(_) => &table[..0],
    }
}

// The same of a job that is within the limits.
pub fn row_within<'a>(j: Job, table: &'a [u32], s: u8) -> &'a [u32]
    requires { Acceptable j }
    ensures { Row j table.now s result.now }
{
    if table.len() != crate::table::size_of(j) {
        return &table[..0];
    }
    if j.m <= s {
        return &table[..0];
    }
    let points = space::boxes::count(j.bounds) as usize;
    let from = usize::from(s) * points;
    let end = from + points;
    &table[from..end]
}
